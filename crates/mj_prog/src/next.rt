ghost use Rattle.std.specs.Prelude.{◌≡◌, ◌+◌, ◌<◌, ◌≤◌, ℕ, List, Option, length};
ghost use Rattle.mj_prog.specs.ReadSoFar.{IsSoFar, IsNext, IsStep, StepCause, StepFewer, StepIsTaken, NextCause, NextIsTaken, next_cost};
ghost use Rattle.mj_prog.specs.Reads.{ReadsNoFurther, StopsReading};
ghost use Rattle.mj_base.specs.declared.event.Event.{Event};

use super::act::{act_on_last, act_on_line};
use super::front::{Front, find_front};
use super::progress::Progress;
use super::read::read_more;
use mj_base::{Event, Source};
use std::alloc::Global;

/// What a script says next.
#[derive(Drop)]
pub enum Next {
    /// This event comes.
    Act(Event),
    /// Nothing comes any more: the script has ended, or a line says `stop`.
    Over,
    /// The line of this number, from 1, is unlawful.
    Line(u64),
    /// A read failed.
    Failed,
    /// There was no memory.
    NoMemory,
}

/// Reads the script on to its next event, or to what ends it.
pub fn read_next<S: Source>(alloc: Global, progress: &mut Progress, src: &mut S) -> Next
    ensures stands { (from : Option (List ℕ)) (taken : List Event) → IsSoFar from (S.left src.old) progress.old.lanes progress.old.pending.items progress.old.room progress.old.lines taken → IsNext from (S.left src.new) progress.new.lanes progress.new.pending.items progress.new.room progress.new.lines taken result }
    ensures lanes { progress.new.lanes ≡ progress.old.lanes }
    ensures later { S.faults src.old ≤ S.faults src.new }
    ensures no_further { (from : Option (List ℕ)) (taken : List Event) → IsSoFar from (S.left src.old) progress.old.lanes progress.old.pending.items progress.old.room progress.old.lines taken → ReadsNoFurther progress.old.lanes from (S.last src.old) (S.last src.new) }
    ensures misses { StopsReading progress.old.room progress.new.room (S.misses src.old) (S.misses src.new) }
    ensures cause { NextCause (S.faults src.old) (S.faults src.new) result }
    ensures taken { NextIsTaken progress.old.lanes result }
    ensures fewer { progress.new.room + length progress.new.pending.items + next_cost result ≤ progress.old.room + length progress.old.pending.items }
{
    loop {
        if let Some(next) = step(alloc, progress, src) {
            return next;
        }
    }
}

/// Acts on the line at the front, or reads more where it isn't whole; None says that the script goes on.
fn step<S: Source>(alloc: Global, progress: &mut Progress, src: &mut S) -> Option<Next>
    ensures stands { (from : Option (List ℕ)) (taken : List Event) → IsSoFar from (S.left src.old) progress.old.lanes progress.old.pending.items progress.old.room progress.old.lines taken → IsStep from (S.left src.new) progress.new.lanes progress.new.pending.items progress.new.room progress.new.lines taken result }
    ensures lanes { progress.new.lanes ≡ progress.old.lanes }
    ensures later { S.faults src.old ≤ S.faults src.new }
    ensures no_further { (from : Option (List ℕ)) (taken : List Event) → IsSoFar from (S.left src.old) progress.old.lanes progress.old.pending.items progress.old.room progress.old.lines taken → ReadsNoFurther progress.old.lanes from (S.last src.old) (S.last src.new) }
    ensures misses { StopsReading progress.old.room progress.new.room (S.misses src.old) (S.misses src.new) }
    ensures cause { StepCause (S.faults src.old) (S.faults src.new) result }
    ensures taken { StepIsTaken progress.old.lanes result }
    ensures fewer { StepFewer progress.old progress.new result }
{
    match find_front(progress) {
        Front::Line(end) => act_on_line(alloc, progress, end),
        Front::Last => act_on_last(alloc, progress),
        Front::TooLong => Some(Next::Line(progress.lines + 1)),
        Front::Part => read_more(progress, src),
        Front::Over => Some(Next::Over),
    }
}
