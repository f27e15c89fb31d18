ghost use Rattle.std.specs.Prelude.{◌≡◌, ◌+◌, ◌<◌, ◌≤◌, ◌^◌, ◌⊎◌, ℕ, List, Option, length, take, drop, vec_len};
ghost use Rattle.mj_base.specs.declared.event.Event.{Event};
ghost use Rattle.mj_base.specs.Reading.{ReadTakes, ReadCause, ReadMisses};
ghost use Rattle.mj_prog.specs.Reads.{ReadsNoFurther, StopsReading};
ghost use Rattle.mj_prog.specs.ReadSoFar.{HasNoNewline, IsSoFar, IsStep, StepCause, StepFewer, StepIsTaken, Fills, FillCause, FillMisses, filled_of, filled_count};

use super::next::Next;
use super::progress::Progress;
use mj_base::{ReadAnswer, Source};

/// One read asks for at most so many bytes.
const READ_BYTES: u64 = 4_096;

/// What became of a read behind the bytes of a buffer.
#[derive(Clone, Copy)]
enum Filled {
    /// So many bytes were appended, at least one.
    Got(usize),
    /// The source has ended.
    End,
    /// The read failed.
    Failed,
    /// There was no memory, and nothing was read.
    NoMemory,
}

/// Reads more of the script, where more may be read. None says that it did, or that the source has ended.
pub fn read_more<S: Source>(progress: &mut Progress, src: &mut S) -> Option<Next>
    requires whole { HasNoNewline progress.old.pending.items }
    requires some { 0 < progress.old.room }
    ensures stands { (from : Option (List ℕ)) (taken : List Event) → IsSoFar from (S.left src.old) progress.old.lanes progress.old.pending.items progress.old.room progress.old.lines taken → IsStep from (S.left src.new) progress.new.lanes progress.new.pending.items progress.new.room progress.new.lines taken result }
    ensures lanes { progress.new.lanes ≡ progress.old.lanes }
    ensures later { S.faults src.old ≤ S.faults src.new }
    ensures no_further { (from : Option (List ℕ)) (taken : List Event) → IsSoFar from (S.left src.old) progress.old.lanes progress.old.pending.items progress.old.room progress.old.lines taken → ReadsNoFurther progress.old.lanes from (S.last src.old) (S.last src.new) }
    ensures misses { StopsReading progress.old.room progress.new.room (S.misses src.old) (S.misses src.new) }
    ensures cause { StepCause (S.faults src.old) (S.faults src.new) result }
    ensures taken { StepIsTaken progress.old.lanes result }
    ensures fewer { StepFewer progress.old progress.new result }
{
    let most = progress.room.min(READ_BYTES) as usize;
    match fill(&mut progress.pending, most, src) {
        Filled::Got(count) => {
            progress.room -= count as u64;
            None
        }
        Filled::End => {
            progress.room = 0;
            None
        }
        Filled::Failed => {
            progress.room = 0;
            Some(Next::Failed)
        }
        Filled::NoMemory => Some(Next::NoMemory),
    }
}

/// Reads at most so many bytes, and appends them.
fn fill<S: Source>(pending: &mut Vec<u8>, most: usize, src: &mut S) -> Filled
    requires some { 0 < most }
    requires few { vec_len pending.old + most ≤ 2 ^ 41 }
    ensures fills { Fills (S.left src.old) (S.left src.new) most pending.old.items pending.new.items result }
    ensures later { S.faults src.old ≤ S.faults src.new }
    ensures last { (S.last src.new ≡ S.left src.old) ⊎ (S.last src.new ≡ S.last src.old) }
    ensures misses { FillMisses (S.misses src.old) (S.misses src.new) result }
    ensures cause { FillCause (S.faults src.old) (S.faults src.new) result }
{
    let at = pending.len();
    if pending.resize(at + most, 0).is_err() {
        return Filled::NoMemory;
    }
    let filled = filled_by(read_behind(pending.as_mut_slice(), at, src));
    pending.truncate(at + count_of(&filled));
    filled
}

fn filled_by(answer: ReadAnswer) -> Filled
    ensures { result ≡ filled_of answer }
{
    match answer {
        ReadAnswer::Got(count) => Filled::Got(count),
        ReadAnswer::End => Filled::End,
        ReadAnswer::Failed => Filled::Failed,
    }
}

fn count_of(filled: &Filled) -> usize
    ensures { result ≡ filled_count filled.now }
{
    match filled {
        Filled::Got(count) => *count,
        Filled::End | Filled::Failed | Filled::NoMemory => 0,
    }
}

/// Reads into the buffer from this place on.
fn read_behind<S: Source>(buffer: &mut [u8], at: usize, src: &mut S) -> ReadAnswer
    requires { at < length buffer.old }
    ensures kept { take at buffer.new ≡ take at buffer.old }
    ensures octets { ReadTakes (S.left src.old) (S.left src.new) result (drop at buffer.new) }
    ensures later { S.faults src.old ≤ S.faults src.new }
    ensures last { S.last src.new ≡ S.left src.old }
    ensures misses { ReadMisses (S.misses src.old) (S.misses src.new) result }
    ensures cause { ReadCause (S.faults src.old) (S.faults src.new) result }
{
    src.read(buffer.split_at_mut(at).1)
}
