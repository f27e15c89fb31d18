ghost use Rattle.std.specs.Prelude.{◌≡◌, ◌≤◌, ◌+◌, ℕ, List, Option, length, string_bytes, IfOk, IfErr, MatchResult};
ghost use Rattle.mj_audit_prog.specs.Auditing;
ghost use Rattle.mj_audit_prog.specs.Auditing.{Audits, IsAudited};
ghost use Rattle.mj_audit_prog.specs.AuditingSoFar.{HaltCause, IsHalted, status_after};
ghost use Rattle.mj_words.specs.SinkCounts.{counted};

use super::pieces::{Halt, read_all};
use super::reader::{Reader, one_more};
use mj_base::{NoMemory, Sink, Source, WriteAnswer};
use mj_transcript::{Law, Verdict};
use mj_words::complain;
use std::alloc::Global;

/// Bytes that are read at once at most.
const BUFFER_BYTES: usize = 4_096;

/// What an audit comes to: its verdict, and the number of lines before it, all of which were held.
#[derive(Clone, Copy, Debug, PartialEq, Eq)]
pub(crate) struct Outcome {
    pub verdict: Verdict,
    pub held: u64,
}

/// Reads the transcript that the source has, until a line ends the audit, and prints the verdict. The answer is the
/// status that the program exits with.
pub fn audit<S: Source, K: Sink>(alloc: Global, src: &mut S, out: &mut K) -> u8
    ensures misses { S.misses src.new ≤ S.misses src.old + 1 }
    ensures audits { Audits (S.left src.old) (S.left src.new) (S.faults src.old) (S.faults src.new) (K.written out.old) (K.written out.new) (counted (K.faults out.old) (K.wants out.old)) (counted (K.faults out.new) (K.wants out.new)) result }
{
    let run = run_text(alloc, src);
    finish(alloc, run, out)
}

/// Reads the text until the audit is over.
fn run_text<S: Source>(alloc: Global, src: &mut S) -> Result<Outcome, Halt>
    ensures whole { IfOk result (λ outcome. IsAudited (S.left src.old) (S.left src.new) outcome.held outcome.verdict) }
    ensures halted { IfErr result (λ halt. IsHalted halt (S.left src.old) (S.left src.new)) }
    ensures cause { IfErr result (λ halt. HaltCause halt (S.faults src.old) (S.faults src.new)) }
    ensures misses { S.misses src.new ≤ S.misses src.old + 1 }
{
    let mut reader = Reader::new(alloc)?;
    let mut buffer = room(alloc)?;
    let verdict = read_all(&mut reader, buffer.as_mut_slice(), src)?;
    Ok(Outcome {
        verdict,
        held: reader.lines,
    })
}

fn room(alloc: Global) -> Result<Vec<u8>, NoMemory>
    ensures { IfOk result (λ room. length room.items ≡ 4096) }
{
    Ok(vec![in alloc; 0; BUFFER_BYTES]?)
}

/// Prints the last line, if there is one, and answers the status.
fn finish<K: Sink>(alloc: Global, run: Result<Outcome, Halt>, out: &mut K) -> u8
    ensures { (from left : Option (List ℕ)) (reads_before reads_now : ℕ) → MatchResult run (λ outcome. IsAudited from left outcome.held outcome.verdict) (λ halt. IsHalted halt from left × HaltCause halt reads_before reads_now) → Audits from left reads_before reads_now (K.written out.old) (K.written out.new) (counted (K.faults out.old) (K.wants out.old)) (counted (K.faults out.new) (K.wants out.new)) result }
{
    match run {
        Ok(outcome) => conclude(alloc, outcome, out),
        Err(halt) => break_off(halt, out),
    }
}

fn break_off<K: Sink>(halt: Halt, out: &mut K) -> u8
    ensures { (from left : Option (List ℕ)) (reads_before reads_now : ℕ) → IsHalted halt from left → HaltCause halt reads_before reads_now → Audits from left reads_before reads_now (K.written out.old) (K.written out.new) (counted (K.faults out.old) (K.wants out.old)) (counted (K.faults out.new) (K.wants out.new)) result }
{
    match halt {
        Halt::NoMemory => 4,
        Halt::Read => {
            complain(b"fault read\n", out);
            6
        }
    }
}

fn conclude<K: Sink>(alloc: Global, outcome: Outcome, out: &mut K) -> u8
    ensures { (from left : Option (List ℕ)) (reads_before reads_now : ℕ) → IsAudited from left outcome.held outcome.verdict → Audits from left reads_before reads_now (K.written out.old) (K.written out.new) (counted (K.faults out.old) (K.wants out.old)) (counted (K.faults out.new) (K.wants out.new)) result }
{
    match verdict_line(alloc, outcome.verdict, outcome.held) {
        Ok(line) => print(outcome.verdict, line.as_bytes(), out),
        Err(NoMemory) => 4,
    }
}

/// Prints the line of this verdict.
fn print<K: Sink>(verdict: Verdict, line: &[u8], out: &mut K) -> u8
    ensures { (from left : Option (List ℕ)) (reads_before reads_now held : ℕ) → IsAudited from left held verdict → line.now ≡ Auditing.verdict_line held verdict → Audits from left reads_before reads_now (K.written out.old) (K.written out.new) (counted (K.faults out.old) (K.wants out.old)) (counted (K.faults out.new) (K.wants out.new)) result }
{
    match verdict {
        Verdict::Held => status_of(0, out.write(line)),
        Verdict::Broken(_) => status_of(12, out.write(line)),
        Verdict::Unlawful => {
            complain(line, out);
            2
        }
    }
}

fn status_of(written: u8, answer: WriteAnswer) -> u8
    ensures { result ≡ status_after written answer }
{
    match answer {
        WriteAnswer::Done => written,
        WriteAnswer::NoMemory => 4,
        WriteAnswer::Failed => 7,
    }
}

fn verdict_line(alloc: Global, verdict: Verdict, held: u64) -> Result<String, NoMemory>
    ensures { IfOk result (λ line. string_bytes line ≡ Auditing.verdict_line held verdict) }
{
    match verdict {
        Verdict::Held => held_line(alloc, held),
        Verdict::Unlawful => fault_line(alloc, one_more(held)?),
        Verdict::Broken(law) => broken_line(alloc, law_word(law), one_more(held)?),
    }
}

fn held_line(alloc: Global, count: u64) -> Result<String, NoMemory>
    ensures { IfOk result (λ line. string_bytes line ≡ Auditing.held_line count) }
{
    Ok(format!(in alloc; "held {count}\n")?)
}

fn fault_line(alloc: Global, number: u64) -> Result<String, NoMemory>
    ensures { IfOk result (λ line. string_bytes line ≡ Auditing.fault_line number) }
{
    Ok(format!(in alloc; "fault line {number}\n")?)
}

fn broken_line(alloc: Global, law: &str, number: u64) -> Result<String, NoMemory>
    ensures { IfOk result (λ line. string_bytes line ≡ Auditing.broken_line law.now number) }
{
    Ok(format!(in alloc; "broken {law} {number}\n")?)
}

fn law_word(law: Law) -> &'static str
    ensures { result.now ≡ Auditing.law_word law }
{
    match law {
        Law::Wire => "wire",
        Law::Owner => "owner",
        Law::Busy => "busy",
        Law::Waiting => "waiting",
    }
}
