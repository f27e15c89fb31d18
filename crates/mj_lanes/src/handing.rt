//! A connection that two threads write to: the hub's, what goes without waiting, and then the lane's writer, from the first
//! write that doesn't go whole on.
ghost use Rattle.std.specs.Prelude.{◌≡◌, ◌↔◌, ◌≤◌, ◌<◌, ◌++◌, ℕ, Bool, List, [], Option, true, length, drop, min, get_or};
ghost use Rattle.mj_base.specs.declared.event.Event.{Event as AnEvent};
ghost use Rattle.mj_base.specs.Writing.{WriteAdds};
ghost use Rattle.mj_lanes.specs.declared.outlet.Item.{Item as AnItem};
ghost use Rattle.mj_lanes.specs.WriteSteps.{DropsIf, FinishedUntil, Handed, Writes, told};

use super::WriterPass;
use super::piece_sink::PieceSink;
use super::writing::{drop_pieces, write_loop};
use mj_base::{NoMemory, Sink, WriteAnswer};
use std::sync::Wait;

/// What was done of the pieces that a writer's pass holds.
#[derive(Clone, Copy, Debug, PartialEq, Eq)]
pub struct Left {
    /// So many are written whole.
    pub whole: usize,
    /// So many bytes of the next one are written.
    pub at: usize,
    /// So many were told.
    pub told: usize,
    /// The end mark stands behind them.
    pub marked: bool,
}

/// Takes what is in the outlet now, writes of it what goes without waiting, and tells of each piece that went whole that it
/// was sent, as far as the inbox has room.
pub fn write_ready<R: Wait, K: PieceSink>(pass: &mut WriterPass<R>, sink: &mut K) -> Left
    ensures pass { (pass.new.inbox ≡ pass.old.inbox) × (pass.new.lane ≡ pass.old.lane) × (pass.new.outlet ≡ pass.old.outlet) }
    ensures writes { Handed pass.old.lane result.marked pass.new.held result.whole result.at result.told pass.old.taken pass.new.taken pass.old.sent pass.new.sent (K.written sink.old) (K.written sink.new) }
    ensures later { K.faults sink.old ≤ K.faults sink.new }
{
    let marked = pass.take_ready();
    let progress = sink.write_now(pass.held());
    let told = pass.try_tell(progress.whole);
    Left {
        whole: progress.whole,
        at: progress.at,
        told,
        marked,
    }
}

/// Whether all of the pieces that the pass holds are written and told.
pub fn is_done<R>(pass: &WriterPass<R>, left: &Left) -> bool
    ensures { (result ≡ true) ↔ ((left.now.whole ≡ length pass.now.held) × (left.now.told ≡ left.now.whole)) }
{
    left.whole == pass.held().len() && left.told == left.whole
}

/// Writes and tells what is left of the pieces that the pass holds, and goes on as `write_loop` does, up to and with the end
/// mark. With what was done before, this is what `write_loop` does by itself.
pub fn write_left<R: Wait + Copy, K: Sink>(
    pass: &mut WriterPass<R>,
    left: &Left,
    sink: &mut K,
) -> Result<(), NoMemory>
    requires { (left.now.told ≤ left.now.whole) × (left.now.whole ≤ length pass.old.held) }
    ensures pass { (pass.new.inbox ≡ pass.old.inbox) × (pass.new.lane ≡ pass.old.lane) × (pass.new.outlet ≡ pass.old.outlet) }
    ensures writes { (taken : List AnItem) (sent : List AnEvent) (out : Option (List ℕ)) → Handed pass.old.lane left.now.marked pass.old.held left.now.whole left.now.at left.now.told taken pass.old.taken sent pass.old.sent out (K.written sink.old) → Writes pass.old.lane taken pass.new.taken sent pass.new.sent out (K.written sink.new) }
    ensures later { K.faults sink.old ≤ K.faults sink.new }
{
    match finish(pass, left, sink) {
        WriteAnswer::Done => {
            if left.marked {
                return Ok(());
            }
            write_loop(pass, sink)
        }
        WriteAnswer::NoMemory => {
            drop_unless(pass, left.marked);
            Err(NoMemory)
        }
        WriteAnswer::Failed => {
            drop_unless(pass, left.marked);
            Ok(())
        }
    }
}

/// Takes and drops what comes up to and with the end mark, unless that was taken.
fn drop_unless<R: Wait + Copy>(pass: &mut WriterPass<R>, marked: bool)
    ensures pass { (pass.new.inbox ≡ pass.old.inbox) × (pass.new.lane ≡ pass.old.lane) × (pass.new.outlet ≡ pass.old.outlet) }
    ensures sent { pass.new.sent ≡ pass.old.sent }
    ensures taken { DropsIf marked pass.old.taken pass.new.taken }
{
    if !marked {
        drop_pieces(pass);
    }
}

/// Tells what is written whole and wasn't told, and writes and tells the others that the pass holds.
fn finish<R: Wait, K: Sink>(pass: &mut WriterPass<R>, left: &Left, sink: &mut K) -> WriteAnswer
    requires { (left.now.told ≤ left.now.whole) × (left.now.whole ≤ length pass.old.held) }
    ensures pass { (pass.new.inbox ≡ pass.old.inbox) × (pass.new.lane ≡ pass.old.lane) × (pass.new.outlet ≡ pass.old.outlet) }
    ensures writes { (marked : Bool) (taken : List AnItem) (sent : List AnEvent) (out : Option (List ℕ)) → Handed pass.old.lane marked pass.old.held left.now.whole left.now.at left.now.told taken pass.old.taken sent pass.old.sent out (K.written sink.old) → FinishedUntil result pass.old.lane marked pass.old.held taken pass.new.taken sent pass.new.sent out (K.written sink.new) }
    ensures later { K.faults sink.old ≤ K.faults sink.new }
{
    pass.tell(left.whole - left.told);
    write_held(pass, left.whole, left.at, sink)
}

/// Writes and tells the pieces that the pass holds from this place on, the first of them from this byte on.
fn write_held<R: Wait, K: Sink>(
    pass: &mut WriterPass<R>,
    from: usize,
    at: usize,
    sink: &mut K,
) -> WriteAnswer
    requires { from ≤ length pass.old.held }
    ensures pass { (pass.new.inbox ≡ pass.old.inbox) × (pass.new.lane ≡ pass.old.lane) × (pass.new.outlet ≡ pass.old.outlet) }
    ensures writes { (marked : Bool) (taken : List AnItem) (sent : List AnEvent) (out : Option (List ℕ)) → Handed pass.old.lane marked pass.old.held from at from taken pass.old.taken sent pass.old.sent out (K.written sink.old) → FinishedUntil result pass.old.lane marked pass.old.held taken pass.new.taken sent pass.new.sent out (K.written sink.new) }
    ensures later { K.faults sink.old ≤ K.faults sink.new }
{
    let mut at = at;
    for place in from..pass.held().len() {
        match write_rest(pass, place, at, sink) {
            WriteAnswer::Done => at = 0,
            WriteAnswer::NoMemory => return WriteAnswer::NoMemory,
            WriteAnswer::Failed => return WriteAnswer::Failed,
        }
    }
    WriteAnswer::Done
}

/// Writes the piece at this place from this byte on, and tells that it was sent where the write is done.
fn write_rest<R: Wait, K: Sink>(
    pass: &mut WriterPass<R>,
    place: usize,
    at: usize,
    sink: &mut K,
) -> WriteAnswer
    requires { place < length pass.old.held }
    ensures sent { pass.new ≡ record pass.old { sent = pass.old.sent ++ told result pass.old.lane } }
    ensures octets { WriteAdds (K.written sink.old) (K.written sink.new) result (drop (min at (length (get_or pass.old.held place []))) (get_or pass.old.held place [])) }
    ensures later { K.faults sink.old ≤ K.faults sink.new }
{
    let piece = &pass.held()[place];
    let rest = &piece.as_slice()[at.min(piece.len())..];
    match sink.write(rest) {
        WriteAnswer::Done => {
            pass.sent();
            WriteAnswer::Done
        }
        WriteAnswer::NoMemory => WriteAnswer::NoMemory,
        WriteAnswer::Failed => WriteAnswer::Failed,
    }
}
