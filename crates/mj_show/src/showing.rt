ghost use Rattle.std.specs.Prelude.{◌≡◌, ◌≤◌, ◌+◌, ℕ, List, Option, length, IfOk, IfErr, MatchResult};
ghost use Rattle.mj_show.specs.Showing.{Shows};
ghost use Rattle.mj_show.specs.ShowingSoFar.{HaltCause, IsHalted, IsWhole, status_after};
ghost use Rattle.mj_words.specs.SinkCounts.{AreLater, SinkCounts, counted};

use super::halt::Halt;
use super::lines::done_line;
use super::pieces::show_all;
use mj_base::{Limits, NoMemory, Sink, Source, WriteAnswer};
use mj_wire::Wire;
use mj_words::complain;
use std::alloc::Global;

/// Bytes that are read at once at most.
const BUFFER_BYTES: usize = 4_096;

/// Prints what the stream of the source says, read with the limits of a broker, and how many bytes it has. The answer is
/// the status that the program exits with.
pub fn show<S: Source, K: Sink>(alloc: Global, src: &mut S, out: &mut K) -> u8
    ensures misses { S.misses src.new ≤ S.misses src.old + 1 }
    ensures shows { Shows (S.left src.old) (S.left src.new) (S.faults src.old) (S.faults src.new) (K.written out.old) (K.written out.new) (counted (K.faults out.old) (K.wants out.old)) (counted (K.faults out.new) (K.wants out.new)) result }
{
    let run = run_stream(alloc, src, out);
    finish(alloc, run, out)
}

/// Shows all; answers how many bytes the stream has.
fn run_stream<S: Source, K: Sink>(alloc: Global, src: &mut S, out: &mut K) -> Result<u64, Halt>
    ensures whole { IfOk result (IsWhole (S.left src.old) (K.written out.old) (K.written out.new)) }
    ensures halted { IfErr result (λ halt. IsHalted halt (S.left src.old) (S.left src.new) (K.written out.old) (K.written out.new)) }
    ensures cause { IfErr result (λ halt. HaltCause halt (S.faults src.old) (S.faults src.new) (K.faults out.old) (K.faults out.new)) }
    ensures later { AreLater (counted (K.faults out.old) (K.wants out.old)) (counted (K.faults out.new) (K.wants out.new)) }
    ensures misses { S.misses src.new ≤ S.misses src.old + 1 }
{
    let mut wire = Wire::new(alloc, &Limits::standard())?;
    let mut buffer = room(alloc)?;
    show_all(alloc, &mut wire, buffer.as_mut_slice(), src, out)
}

fn room(alloc: Global) -> Result<Vec<u8>, NoMemory>
    ensures { IfOk result (λ room. length room.items ≡ 4096) }
{
    Ok(vec![in alloc; 0; BUFFER_BYTES]?)
}

/// Prints the last line, if there is one, and answers the status.
fn finish<K: Sink>(alloc: Global, run: Result<u64, Halt>, out: &mut K) -> u8
    ensures { (from left old : Option (List ℕ)) (reads_before reads_now : ℕ) (before : SinkCounts) → AreLater before (counted (K.faults out.old) (K.wants out.old)) → MatchResult run (IsWhole from old (K.written out.old)) (λ halt. IsHalted halt from left old (K.written out.old) × HaltCause halt reads_before reads_now before.faults (K.faults out.old)) → Shows from left reads_before reads_now old (K.written out.new) before (counted (K.faults out.new) (K.wants out.new)) result }
{
    match run {
        Ok(count) => finish_whole(alloc, count, out),
        Err(halt) => break_off(halt, out),
    }
}

fn finish_whole<K: Sink>(alloc: Global, count: u64, out: &mut K) -> u8
    ensures { (from left old : Option (List ℕ)) (reads_before reads_now : ℕ) (before : SinkCounts) → AreLater before (counted (K.faults out.old) (K.wants out.old)) → IsWhole from old (K.written out.old) count → Shows from left reads_before reads_now old (K.written out.new) before (counted (K.faults out.new) (K.wants out.new)) result }
{
    match done_line(alloc, count) {
        Ok(line) => status_of(out.write(line.as_bytes())),
        Err(NoMemory) => 4,
    }
}

fn status_of(answer: WriteAnswer) -> u8
    ensures { result ≡ status_after answer }
{
    match answer {
        WriteAnswer::Done => 0,
        WriteAnswer::NoMemory => 4,
        WriteAnswer::Failed => 7,
    }
}

fn break_off<K: Sink>(halt: Halt, out: &mut K) -> u8
    ensures { (from left old : Option (List ℕ)) (reads_before reads_now : ℕ) (before : SinkCounts) → AreLater before (counted (K.faults out.old) (K.wants out.old)) → IsHalted halt from left old (K.written out.old) → HaltCause halt reads_before reads_now before.faults (K.faults out.old) → Shows from left reads_before reads_now old (K.written out.new) before (counted (K.faults out.new) (K.wants out.new)) result }
{
    match halt {
        Halt::NoMemory => 4,
        Halt::Read => {
            complain(b"fault read\n", out);
            6
        }
        Halt::Write => 7,
    }
}
