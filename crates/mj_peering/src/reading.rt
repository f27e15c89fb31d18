ghost use Rattle.std.specs.Prelude.{◌≡◌, ◌≤◌, ◌∷◌, [], length, IfOk, IfErr, OnErr};
ghost use Rattle.mj_base.specs.Linking.{Tells};
ghost use Rattle.mj_peering.specs.Performing.{entry_of};
ghost use Rattle.mj_peering.specs.Requests.{ReadCause};

use super::stop::Stop;
use mj_base::{Link, LinkAnswer, LinkEvent, NoMemory, Octets};
use std::alloc::Global;

/// Bytes of a link that are read at once at most.
const PIECE_BYTES: usize = 65_536;

/// Reads what the link gives next. The room is there before the link is read, so that want of memory loses nothing.
pub fn read_event<L: Link>(alloc: Global, link: &mut L) -> Result<LinkEvent, Stop>
    ensures told { IfOk result (λ event. Tells (L.told link.old) (L.told link.new) (entry_of event ∷ [])) }
    ensures failed { OnErr result (L.told link.new ≡ L.told link.old) }
    ensures cause { IfErr result (λ stop. ReadCause stop (L.read_faults link.old) (L.read_faults link.new)) }
    ensures reads { L.read_faults link.old ≤ L.read_faults link.new }
    ensures writes { L.write_faults link.old ≤ L.write_faults link.new }
{
    let mut room = room(alloc)?;
    match link.read(room.as_mut_slice()) {
        LinkAnswer::Got(count) => {
            room.truncate(count);
            Ok(LinkEvent::Given(Octets::from_vec(room)))
        }
        LinkAnswer::Idle => Ok(LinkEvent::Idle),
        LinkAnswer::End => Ok(LinkEvent::End),
        LinkAnswer::NoMemory => Err(Stop::NoMemory),
        LinkAnswer::Failed => Err(Stop::Read),
    }
}

fn room(alloc: Global) -> Result<Vec<u8>, NoMemory>
    ensures { IfOk result (λ room. length room.items ≡ 65536) }
{
    Ok(vec![in alloc; 0; PIECE_BYTES]?)
}
