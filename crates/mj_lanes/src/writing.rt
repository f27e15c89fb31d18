ghost use Rattle.std.specs.Prelude.{◌≡◌, ◌≤◌, ◌⊎◌, ◌++◌, OnOk};
ghost use Rattle.mj_base.specs.Rising.{Rose};
ghost use Rattle.mj_base.specs.Writing.{WriteAdds, WriteCause};
ghost use Rattle.mj_lanes.specs.WriteSteps.{Drops, Writes, WroteAll, WroteUntil, told};

use super::WriterPass;
use mj_base::{NoMemory, Octets, Sink, WriteAnswer};
use std::sync::Wait;

/// Writes the pieces of the outlet up to the first end mark, and tells of each that it was sent. After a write that
/// fails or wants memory, it takes and drops what comes before the end mark.
pub fn write_loop<R: Wait + Copy, K: Sink>(
    pass: &mut WriterPass<R>,
    sink: &mut K,
) -> Result<(), NoMemory>
    ensures pass { (pass.new.inbox ≡ pass.old.inbox) × (pass.new.lane ≡ pass.old.lane) × (pass.new.outlet ≡ pass.old.outlet) }
    ensures writes { Writes pass.old.lane pass.old.taken pass.new.taken pass.old.sent pass.new.sent (K.written sink.old) (K.written sink.new) }
    ensures all { OnOk result (WroteAll pass.old.lane pass.old.taken pass.new.taken pass.old.sent pass.new.sent (K.written sink.old) (K.written sink.new) ⊎ Rose (K.faults sink.old) (K.faults sink.new)) }
    ensures later { K.faults sink.old ≤ K.faults sink.new }
{
    match write_pieces(pass, sink) {
        WriteAnswer::Done => Ok(()),
        WriteAnswer::NoMemory => {
            drop_pieces(pass);
            Err(NoMemory)
        }
        WriteAnswer::Failed => {
            drop_pieces(pass);
            Ok(())
        }
    }
}

/// Writes pieces up to the end mark, or up to a write that isn't done, and says which.
fn write_pieces<R: Wait + Copy, K: Sink>(pass: &mut WriterPass<R>, sink: &mut K) -> WriteAnswer
    ensures pass { (pass.new.inbox ≡ pass.old.inbox) × (pass.new.lane ≡ pass.old.lane) × (pass.new.outlet ≡ pass.old.outlet) }
    ensures writes { WroteUntil result pass.old.lane pass.old.taken pass.new.taken pass.old.sent pass.new.sent (K.written sink.old) (K.written sink.new) }
    ensures cause { WriteCause (K.faults sink.old) (K.faults sink.new) result }
    ensures later { K.faults sink.old ≤ K.faults sink.new }
{
    let rt = pass.handle();
    for _ in rt.forever() {
        let Some(piece) = pass.take_piece() else {
            return WriteAnswer::Done;
        };
        match write_piece(pass, sink, &piece) {
            WriteAnswer::Done => {}
            WriteAnswer::NoMemory => return WriteAnswer::NoMemory,
            WriteAnswer::Failed => return WriteAnswer::Failed,
        }
    }
    unreachable!()
}

/// Writes a piece, and tells that it was sent where the write is done.
fn write_piece<R: Wait, K: Sink>(
    pass: &mut WriterPass<R>,
    sink: &mut K,
    piece: &Octets,
) -> WriteAnswer
    ensures sent { pass.new ≡ record pass.old { sent = pass.old.sent ++ told result pass.old.lane } }
    ensures octets { WriteAdds (K.written sink.old) (K.written sink.new) result piece.now }
    ensures cause { WriteCause (K.faults sink.old) (K.faults sink.new) result }
    ensures later { K.faults sink.old ≤ K.faults sink.new }
{
    match sink.write(piece.as_slice()) {
        WriteAnswer::Done => {
            pass.sent();
            WriteAnswer::Done
        }
        WriteAnswer::NoMemory => WriteAnswer::NoMemory,
        WriteAnswer::Failed => WriteAnswer::Failed,
    }
}

/// Takes and drops pieces, up to and with the end mark.
pub(crate) fn drop_pieces<R: Wait + Copy>(pass: &mut WriterPass<R>)
    ensures pass { (pass.new.inbox ≡ pass.old.inbox) × (pass.new.lane ≡ pass.old.lane) × (pass.new.outlet ≡ pass.old.outlet) }
    ensures sent { pass.new.sent ≡ pass.old.sent }
    ensures taken { Drops pass.old.taken pass.new.taken }
{
    let rt = pass.handle();
    for _ in rt.forever() {
        let Some(_piece) = pass.take_piece() else {
            return;
        };
    }
    unreachable!()
}
