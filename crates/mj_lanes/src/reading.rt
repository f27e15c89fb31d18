ghost use Rattle.std.specs.Prelude.{◌≡◌, ◌<◌, ◌≤◌, ◌⊎◌, false, length, IfOk, OnOk, OnErr, if◌then◌else◌};
ghost use Rattle.std.specs.Io.KnownBytes.{IsAtEnd};
ghost use Rattle.mj_base.specs.Rising.{Rose, risen};
ghost use Rattle.mj_lanes.specs.ReadSteps.{Reads, ReadsAll};

use super::LanePass;
use mj_base::{Event, NoMemory, Octets, ReadAnswer, Source};
use std::alloc::Global;
use std::sync::Wait;

/// The most bytes of a piece.
const PIECE_BYTES: usize = 65_536;

/// Sends what the source gives, as pieces in order, until the source's end, a read that fails or want of memory,
/// and then `Close`. The room for a piece is there before it reads, so that no byte read is lost.
pub fn read_loop<R: Wait + Copy, S: Source>(
    alloc: Global,
    pass: &mut LanePass<R>,
    source: &mut S,
) -> Result<(), NoMemory>
    ensures pass { (pass.new.inbox ≡ pass.old.inbox) × (pass.new.lane ≡ pass.old.lane) }
    ensures sent { ReadsAll pass.old.lane pass.old.sent pass.new.sent (S.left source.old) (S.left source.new) }
    ensures all { OnOk result (IsAtEnd (S.left source.new) ⊎ Rose (S.faults source.old) (S.faults source.new)) }
    ensures later { S.faults source.old ≤ S.faults source.new }

    // Behind the read that gave nothing there is none.
    ensures misses { OnOk result (S.misses source.new ≡ risen (S.misses source.old)) }
    ensures unmissed { OnErr result (S.misses source.new ≡ S.misses source.old) }
{
    let result = read_with_room(alloc, pass, source);
    pass.send(Event::Close(pass.lane()));
    result
}

fn read_with_room<R: Wait + Copy, S: Source>(
    alloc: Global,
    pass: &mut LanePass<R>,
    source: &mut S,
) -> Result<(), NoMemory>
    ensures pass { (pass.new.inbox ≡ pass.old.inbox) × (pass.new.lane ≡ pass.old.lane) }
    ensures sent { Reads pass.old.lane pass.old.sent pass.new.sent (S.left source.old) (S.left source.new) }
    ensures all { OnOk result (IsAtEnd (S.left source.new) ⊎ Rose (S.faults source.old) (S.faults source.new)) }
    ensures later { S.faults source.old ≤ S.faults source.new }
    ensures misses { OnOk result (S.misses source.new ≡ risen (S.misses source.old)) }
    ensures unmissed { OnErr result (S.misses source.new ≡ S.misses source.old) }
{
    let mut into = zeros(alloc, PIECE_BYTES)?;
    read_pieces(alloc, pass, source, &mut into)
}

fn zeros(alloc: Global, count: usize) -> Result<Vec<u8>, NoMemory>
    ensures { IfOk result (λ bytes. length bytes.items ≡ count) }
{
    Ok(Vec::from_elem(alloc, 0, count)?)
}

/// Reads into this room and sends what came, until nothing comes.
fn read_pieces<R: Wait + Copy, S: Source>(
    alloc: Global,
    pass: &mut LanePass<R>,
    source: &mut S,
    into: &mut Vec<u8>,
) -> Result<(), NoMemory>
    requires { (0 < length into.old.items) × (length into.old.items ≤ 65536) }
    ensures pass { (pass.new.inbox ≡ pass.old.inbox) × (pass.new.lane ≡ pass.old.lane) }
    ensures sent { Reads pass.old.lane pass.old.sent pass.new.sent (S.left source.old) (S.left source.new) }
    ensures all { OnOk result (IsAtEnd (S.left source.new) ⊎ Rose (S.faults source.old) (S.faults source.new)) }
    ensures later { S.faults source.old ≤ S.faults source.new }
    ensures misses { OnOk result (S.misses source.new ≡ risen (S.misses source.old)) }
    ensures unmissed { OnErr result (S.misses source.new ≡ S.misses source.old) }
{
    let rt = pass.handle();
    for _ in rt.forever() {
        if !read_piece(alloc, pass, source, into)? {
            return Ok(());
        }
    }
    unreachable!()
}

/// Reads and sends one piece; false where there is none. Without memory for a copy of the bytes the room itself is
/// sent with them.
fn read_piece<R: Wait + Copy, S: Source>(
    alloc: Global,
    pass: &mut LanePass<R>,
    source: &mut S,
    into: &mut Vec<u8>,
) -> Result<bool, NoMemory>
    requires { (0 < length into.old.items) × (length into.old.items ≤ 65536) }
    ensures room { OnOk result (length into.new.items ≡ length into.old.items) }
    ensures pass { (pass.new.inbox ≡ pass.old.inbox) × (pass.new.lane ≡ pass.old.lane) }
    ensures sent { Reads pass.old.lane pass.old.sent pass.new.sent (S.left source.old) (S.left source.new) }
    ensures all { IfOk result (λ more. more ≡ false → IsAtEnd (S.left source.new) ⊎ Rose (S.faults source.old) (S.faults source.new)) }
    ensures later { S.faults source.old ≤ S.faults source.new }
    ensures misses { IfOk result (λ more. S.misses source.new ≡ (if more then S.misses source.old else risen (S.misses source.old))) }
    ensures unmissed { OnErr result (S.misses source.new ≡ S.misses source.old) }
{
    match source.read(into.as_mut_slice()) {
        ReadAnswer::Got(count) => match Octets::copy_of(alloc, &into[..count]) {
            Ok(piece) => {
                pass.send(Event::Bytes(pass.lane(), piece));
                Ok(true)
            }
            Err(error) => {
                let mut room = std::mem::replace(into, Vec::new(alloc));
                room.truncate(count);
                pass.send(Event::Bytes(pass.lane(), Octets::from_vec(room)));
                Err(error)
            }
        },
        ReadAnswer::End => Ok(false),
        ReadAnswer::Failed => Ok(false),
    }
}
