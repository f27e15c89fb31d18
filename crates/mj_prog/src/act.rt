ghost use Rattle.std.specs.Prelude.{◌≡◌, ◌<◌, ◌≤◌, ℕ, List, Option, length, drop};
ghost use Rattle.mj_base.specs.declared.event.Event.{Event};
ghost use Rattle.mj_prog.specs.ReadSoFar.{HasNoNewline, IsNewlineAt, IsSoFar, IsStep, StepIsTaken, StepCause, StepFewer, IsBehind, MeansNext};

use super::line::read_line;
use super::meaning::Meaning;
use super::next::Next;
use super::progress::Progress;
use mj_base::NoMemory;
use std::alloc::Global;

/// Acts on the front line, which has so many bytes before its newline; None says that it is no event.
pub fn act_on_line(alloc: Global, progress: &mut Progress, end: usize) -> Option<Next>
    requires { IsNewlineAt progress.old.pending.items end }
    ensures unread { (before now : ℕ) → StepCause before now result }
    ensures stands { (from now : Option (List ℕ)) (taken : List Event) → IsSoFar from now progress.old.lanes progress.old.pending.items progress.old.room progress.old.lines taken → IsStep from now progress.new.lanes progress.new.pending.items progress.new.room progress.new.lines taken result }
    ensures lanes { progress.new.lanes ≡ progress.old.lanes }
    ensures room { progress.new.room ≡ progress.old.room }
    ensures taken { StepIsTaken progress.old.lanes result }
    ensures fewer { StepFewer progress.old progress.new result }
{
    let meaning = read_line(alloc, progress.lanes, &progress.pending.as_slice()[..end]);
    follow(progress, meaning, end + 1)
}

/// Acts on the last line, which has no newline; None says that it is no event.
pub fn act_on_last(alloc: Global, progress: &mut Progress) -> Option<Next>
    requires { HasNoNewline progress.old.pending.items × (progress.old.room ≡ 0) × (0 < length progress.old.pending.items) }
    ensures unread { (before now : ℕ) → StepCause before now result }
    ensures stands { (from now : Option (List ℕ)) (taken : List Event) → IsSoFar from now progress.old.lanes progress.old.pending.items progress.old.room progress.old.lines taken → IsStep from now progress.new.lanes progress.new.pending.items progress.new.room progress.new.lines taken result }
    ensures lanes { progress.new.lanes ≡ progress.old.lanes }
    ensures room { progress.new.room ≡ progress.old.room }
    ensures taken { StepIsTaken progress.old.lanes result }
    ensures fewer { StepFewer progress.old progress.new result }
{
    let meaning = read_line(alloc, progress.lanes, progress.pending.as_slice());
    let count = progress.pending.len();
    follow(progress, meaning, count)
}

/// Does what a line says, which takes so many bytes with its newline.
fn follow(progress: &mut Progress, meaning: Result<Meaning, NoMemory>, count: usize) -> Option<Next>
    requires some { 0 < count }
    requires inside { count ≤ length progress.old.pending.items }
    ensures means { MeansNext progress.old progress.new count meaning result }
{
    match meaning {
        Ok(Meaning::Act(event)) => {
            pass_line(progress, count);
            Some(Next::Act(event))
        }
        Ok(Meaning::Nothing) => {
            pass_line(progress, count);
            None
        }
        Ok(Meaning::Stop) => Some(Next::Over),
        Ok(Meaning::Unlawful) => Some(Next::Line(progress.lines + 1)),
        Err(NoMemory) => Some(Next::NoMemory),
    }
}

/// Takes out the front line, which takes so many bytes with its newline.
fn pass_line(progress: &mut Progress, count: usize)
    requires some { 0 < count }
    requires inside { count ≤ length progress.old.pending.items }
    ensures { IsBehind progress.old progress.new count }
{
    take_out(&mut progress.pending, count);
    progress.lines += 1;
}

/// Takes so many bytes out at the front.
fn take_out(pending: &mut Vec<u8>, count: usize)
    requires { count ≤ length pending.old.items }
    ensures { pending.new.items ≡ drop count pending.old.items }
{
    pending.drain(..count);
}
