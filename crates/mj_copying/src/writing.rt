ghost use Rattle.std.specs.Prelude.{◌≡◌, ◌≤◌, ◌∷◌, [], OnOk, OnErr, IfErr};
ghost use Rattle.mj_base.specs.Linking.{Tells};
ghost use Rattle.mj_copying.specs.Passing.{WriteCause, wrote};

use super::stop::Stop;
use mj_base::{Link, LinkWrite};

/// Writes these bytes to the link.
pub(crate) fn write<L: Link>(octets: &[u8], link: &mut L) -> Result<(), Stop>
    ensures done { OnOk result (Tells (L.told link.old) (L.told link.new) (wrote octets.now)) }
    ensures broken { OnErr result (L.told link.new ≡ L.told link.old) }
    ensures cause { IfErr result (λ stop. WriteCause stop (L.write_faults link.old) (L.write_faults link.new)) }
    ensures reads { L.read_faults link.old ≤ L.read_faults link.new }
    ensures writes { L.write_faults link.old ≤ L.write_faults link.new }
{
    match link.write(octets) {
        LinkWrite::Done => Ok(()),
        LinkWrite::NoMemory => Err(Stop::NoMemory),
        LinkWrite::Failed => Err(Stop::Write),
    }
}
