ghost use Rattle.std.specs.Prelude.{◌≡◌, ◌≤◌, IfOk, MatchResult, string_bytes};
ghost use Rattle.hex.specs.Hex.{encode_lower};
ghost use Rattle.mj_base.specs.Writing.{WriteAdds, WriteCause};
ghost use Rattle.mj_prog.specs.Shown;
ghost use Rattle.mj_words.specs.Lines;
ghost use Rattle.mj_words.specs.SinkCounts.{AreLater, counted};
ghost use Rattle.mj_prog.specs.Standing.{AddsOut, AddsCause};
ghost use Rattle.std.specs.Io.KnownBytes.{Keeps};
ghost use Rattle.mj_base.specs.declared.sink.WriteAnswer;
ghost use Rattle.mj_base.specs.declared.event.Out.TheVariants as outs;

use super::halt::StoreFault;
use mj_base::{NoMemory, Note, Reason, Sink, WriteAnswer};
use std::alloc::Global;

/// Prints a piece, unless what was printed before wasn't written.
pub fn print_piece<K: Sink>(
    alloc: Global,
    wrote: WriteAnswer,
    lane: u32,
    piece: &[u8],
    out: &mut K,
) -> WriteAnswer
    ensures prints { AddsOut (K.written out.old) (K.written out.new) wrote result (outs.Piece lane piece.now) }
    ensures later { AreLater (counted (K.faults out.old) (K.wants out.old)) (counted (K.faults out.new) (K.wants out.new)) }
    ensures cause { AddsCause (K.faults out.old) (K.faults out.new) wrote result }
{
    match wrote {
        WriteAnswer::Done => print_text(put_line(alloc, lane, piece), out),
        WriteAnswer::NoMemory => WriteAnswer::NoMemory,
        WriteAnswer::Failed => WriteAnswer::Failed,
    }
}

/// Prints an end, as `print_piece` prints a piece.
pub fn print_end<K: Sink>(
    alloc: Global,
    wrote: WriteAnswer,
    lane: u32,
    reason: Reason,
    at: u64,
    out: &mut K,
) -> WriteAnswer
    ensures prints { AddsOut (K.written out.old) (K.written out.new) wrote result (outs.End lane reason at) }
    ensures later { AreLater (counted (K.faults out.old) (K.wants out.old)) (counted (K.faults out.new) (K.wants out.new)) }
    ensures cause { AddsCause (K.faults out.old) (K.faults out.new) wrote result }
{
    match wrote {
        WriteAnswer::Done => print_text(end_line(alloc, lane, reason, at), out),
        WriteAnswer::NoMemory => WriteAnswer::NoMemory,
        WriteAnswer::Failed => WriteAnswer::Failed,
    }
}

/// Prints a note, as `print_piece` prints a piece.
pub fn print_note<K: Sink>(
    alloc: Global,
    wrote: WriteAnswer,
    note: Note,
    out: &mut K,
) -> WriteAnswer
    ensures prints { AddsOut (K.written out.old) (K.written out.new) wrote result (outs.Note note) }
    ensures later { AreLater (counted (K.faults out.old) (K.wants out.old)) (counted (K.faults out.new) (K.wants out.new)) }
    ensures cause { AddsCause (K.faults out.old) (K.faults out.new) wrote result }
{
    match wrote {
        WriteAnswer::Done => print_text(note_line(alloc, note), out),
        WriteAnswer::NoMemory => WriteAnswer::NoMemory,
        WriteAnswer::Failed => WriteAnswer::Failed,
    }
}

/// Writes a line, if there was memory to make it.
fn print_text<K: Sink>(line: Result<String, NoMemory>, out: &mut K) -> WriteAnswer
    ensures octets { MatchResult line (λ text. WriteAdds (K.written out.old) (K.written out.new) result (string_bytes text)) (λ _. (result ≡ WriteAnswer.NoMemory) × Keeps (K.written out.old) (K.written out.new)) }
    ensures later { K.faults out.old ≤ K.faults out.new }
    ensures cause { WriteCause (K.faults out.old) (K.faults out.new) result }
    ensures wants_later { K.wants out.old ≤ K.wants out.new }
{
    match line {
        Ok(line) => out.write(line.as_bytes()),
        Err(NoMemory) => WriteAnswer::NoMemory,
    }
}

fn put_line(alloc: Global, lane: u32, piece: &[u8]) -> Result<String, NoMemory>
    ensures { IfOk result (λ line. string_bytes line ≡ Shown.put_line lane (encode_lower piece.now)) }
{
    let digits = hex::encode(alloc, piece)?;
    put_text(alloc, lane, digits.as_str())
}

fn put_text(alloc: Global, lane: u32, digits: &str) -> Result<String, NoMemory>
    ensures { IfOk result (λ line. string_bytes line ≡ Shown.put_line lane digits.now) }
{
    Ok(format!(in alloc; "put {lane} {digits}\n")?)
}

fn end_line(alloc: Global, lane: u32, reason: Reason, at: u64) -> Result<String, NoMemory>
    ensures { IfOk result (λ line. string_bytes line ≡ Shown.end_line lane (Shown.reason_word reason) at) }
{
    end_text(alloc, lane, reason_word(reason), at)
}

fn end_text(alloc: Global, lane: u32, reason: &str, at: u64) -> Result<String, NoMemory>
    ensures { IfOk result (λ line. string_bytes line ≡ Shown.end_line lane reason.now at) }
{
    Ok(format!(in alloc; "end {lane} {reason} {at}\n")?)
}

fn note_line(alloc: Global, note: Note) -> Result<String, NoMemory>
    ensures { IfOk result (λ line. string_bytes line ≡ Shown.note_line note) }
{
    match note {
        Note::Shut(act) => Ok(format!(in alloc; "store shut {act}\n")?),
        Note::Again(act, true) => Ok(format!(in alloc; "store open {act} kept\n")?),
        Note::Again(act, false) => Ok(format!(in alloc; "store open {act} plain\n")?),
    }
}

fn reason_word(reason: Reason) -> &'static str
    ensures { result.now ≡ Shown.reason_word reason }
{
    match reason {
        Reason::BadSignature => "bad-signature",
        Reason::BadVersion => "bad-version",
        Reason::BadMechanism => "bad-mechanism",
        Reason::BadFlags => "bad-flags",
        Reason::BadHandshake => "bad-handshake",
        Reason::BadSocketType => "bad-socket-type",
        Reason::TooMany => "too-many",
        Reason::TooLong => "too-long",
        Reason::Slow => "slow",
        Reason::QueueFull => "queue-full",
    }
}

pub fn done_line(alloc: Global, events: u64) -> Result<String, NoMemory>
    ensures { IfOk result (λ line. string_bytes line ≡ Lines.done_line events) }
{
    Ok(format!(in alloc; "done {events}\n")?)
}

pub fn fault_line(alloc: Global, number: u64) -> Result<String, NoMemory>
    ensures { IfOk result (λ line. string_bytes line ≡ Shown.fault_line number) }
{
    Ok(format!(in alloc; "fault line {number}\n")?)
}

/// The line that says why a file is refused.
pub fn store_line(alloc: Global, fault: StoreFault) -> Result<String, NoMemory>
    ensures { IfOk result (λ line. string_bytes line ≡ Shown.store_line fault) }
{
    match fault {
        StoreFault::NotAStore => Ok(format!(in alloc; "fault store not-a-store\n")?),
        StoreFault::Version(version) => Ok(format!(in alloc; "fault store version {version}\n")?),
        StoreFault::Damaged(at) => Ok(format!(in alloc; "fault store damaged {at}\n")?),
    }
}
