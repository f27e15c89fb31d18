ghost use Rattle.std.specs.Prelude.{◌≡◌, ◌<◌, ◌≤◌, ◌+◌, ◌-◌, ◌^◌, ◌++◌, ℕ, List, [], Option, false, true, length, min, take, IfOk, IfErr, OnOk, OnErr};
ghost use Rattle.std.specs.Io.KnownBytes.{Appends};
ghost use Rattle.mj_base.specs.Reading.{ReadTakes, ReadCause, ReadMisses};
ghost use Rattle.mj_base.specs.Writing.{AppendsFront};
ghost use Rattle.mj_base.specs.StandardLimits.{standard_limits};
ghost use Rattle.mj_show.specs.Showing.{item_lines};
ghost use Rattle.mj_show.specs.ShowingSoFar.{HaltCause, IsHalted, IsWhole, PrintCause, SoFar, StepsOn};
ghost use Rattle.mj_wire.specs.StreamItems.{gained};
ghost use Rattle.mj_wire.specs.WireState.{StandsFor};

use super::halt::Halt;
use super::printing::print_all;
use mj_base::{ReadAnswer, Sink, Source};
use mj_wire::Wire;
use std::alloc::Global;

/// Bytes of a stream that are read at most.
const STREAM_BYTES: u64 = 1 << 40;

/// Reads the stream to its end, and prints what it says; answers how many bytes it has.
pub(crate) fn show_all<S: Source, K: Sink>(
    alloc: Global,
    wire: &mut Wire,
    buffer: &mut [u8],
    src: &mut S,
    out: &mut K,
) -> Result<u64, Halt>
    requires fresh { StandsFor standard_limits wire.old [] }
    requires ready { wire.old.spent ≡ false }
    requires room { 0 < length buffer.old }
    ensures whole { IfOk result (IsWhole (S.left src.old) (K.written out.old) (K.written out.new)) }
    ensures halted { IfErr result (λ halt. IsHalted halt (S.left src.old) (S.left src.new) (K.written out.old) (K.written out.new)) }
    ensures cause { IfErr result (λ halt. HaltCause halt (S.faults src.old) (S.faults src.new) (K.faults out.old) (K.faults out.new)) }
    ensures later { K.faults out.old ≤ K.faults out.new }
    ensures wants_later { K.wants out.old ≤ K.wants out.new }
    ensures misses { S.misses src.new ≤ S.misses src.old + 1 }
{
    for _ in 0..STREAM_BYTES {
        if !step(alloc, wire, buffer, src, out)? {
            return Ok(wire.taken());
        }
    }
    Ok(wire.taken())
}

/// Reads the next bytes, and prints what they say; false where there are none.
fn step<S: Source, K: Sink>(
    alloc: Global,
    wire: &mut Wire,
    buffer: &mut [u8],
    src: &mut S,
    out: &mut K,
) -> Result<bool, Halt>
    requires ready { wire.old.spent ≡ false }
    requires room { 0 < length buffer.old }
    requires few { wire.old.taken ≤ 2 ^ 40 }
    ensures goes { IfOk result (λ more. (from old : Option (List ℕ)) (read : List ℕ) → SoFar from (S.left src.old) old (K.written out.old) wire.old read → StepsOn more from (S.left src.new) old (K.written out.new) wire.old wire.new read) }
    ensures halted { IfErr result (λ halt. (from old : Option (List ℕ)) (read : List ℕ) → SoFar from (S.left src.old) old (K.written out.old) wire.old read → IsHalted halt from (S.left src.new) old (K.written out.new)) }
    ensures cause { IfErr result (λ halt. HaltCause halt (S.faults src.old) (S.faults src.new) (K.faults out.old) (K.faults out.new)) }
    ensures later { K.faults out.old ≤ K.faults out.new }
    ensures wants_later { K.wants out.old ≤ K.wants out.new }
    ensures reads_later { S.faults src.old ≤ S.faults src.new }
    ensures misses { S.misses src.new ≤ S.misses src.old + 1 }
    ensures got { IfOk result (λ more. more ≡ true → S.misses src.new ≡ S.misses src.old) }
    ensures ready { OnOk result (wire.new.spent ≡ false) }
    ensures same { length buffer.new ≡ length buffer.old }
{
    let most = room(wire.taken(), buffer.len());
    if most == 0 {
        return Ok(false);
    }
    match read_front(buffer, most, src) {
        ReadAnswer::Got(count) => show_piece(alloc, wire, &buffer[..count], out),
        ReadAnswer::End => Ok(false),
        ReadAnswer::Failed => Err(Halt::Read),
    }
}

/// Reads at most so many bytes into the front of the buffer.
fn read_front<S: Source>(buffer: &mut [u8], most: usize, src: &mut S) -> ReadAnswer
    requires some { 0 < most }
    requires inside { most ≤ length buffer.old }
    ensures octets { ReadTakes (S.left src.old) (S.left src.new) result (take most buffer.new) }
    ensures later { S.faults src.old ≤ S.faults src.new }
    ensures cause { ReadCause (S.faults src.old) (S.faults src.new) result }
    ensures misses { ReadMisses (S.misses src.old) (S.misses src.new) result }
    ensures same { length buffer.new ≡ length buffer.old }
{
    src.read(buffer.split_at_mut(most).0)
}

/// How many bytes may be read at once, behind so many.
fn room(taken: u64, len: usize) -> usize
    requires { taken ≤ 2 ^ 40 }
    ensures { result ≡ min (2 ^ 40 - taken) len }
{
    (STREAM_BYTES - taken).min(len as u64) as usize
}

/// Takes a piece of the stream, and prints what it says; answers true.
fn show_piece<K: Sink>(
    alloc: Global,
    wire: &mut Wire,
    piece: &[u8],
    out: &mut K,
) -> Result<bool, Halt>
    requires { wire.old.spent ≡ false }
    ensures more { IfOk result (λ more. more ≡ true) }
    ensures stands { OnOk result ((stream : List ℕ) → StandsFor standard_limits wire.old stream → StandsFor standard_limits wire.new (stream ++ piece.now)) }
    ensures done { OnOk result ((stream : List ℕ) → StandsFor standard_limits wire.old stream → Appends (K.written out.old) (K.written out.new) (item_lines (gained standard_limits stream piece.now))) }
    ensures broken { OnErr result ((stream : List ℕ) → StandsFor standard_limits wire.old stream → AppendsFront (K.written out.old) (K.written out.new) (item_lines (gained standard_limits stream piece.now))) }
    ensures cause { IfErr result (λ halt. PrintCause halt (K.faults out.old) (K.faults out.new)) }
    ensures later { K.faults out.old ≤ K.faults out.new }
    ensures wants_later { K.wants out.old ≤ K.wants out.new }
    ensures ready { OnOk result (wire.new.spent ≡ false) }
{
    let mut items = Vec::new(alloc);
    wire.feed(alloc, piece, &mut items)?;
    print_all(alloc, items.as_slice(), out)?;
    Ok(true)
}
