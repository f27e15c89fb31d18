ghost use Rattle.std.specs.Prelude.{◌≡◌, true, false, is_some, ◌+◌, ◌^◌, ◌<◌, ◌≤◌, length, OnOk, OnErr};
ghost use Rattle.mj_base.specs.Rising.{Rose};
ghost use Rattle.mj_disk.specs.Content.{IsImage, settled, spliced, touched};
ghost use Rattle.mj_disk.specs.DiskModel.{Now, Becomes, Turns, SpoilsAt, CrashesAs};

use super::{Disk, DiskFailed};

/// A write, and then a sync.
pub fn write_synced<D: Disk>(disk: &mut D, at: u64, octets: &[u8]) -> Result<(), DiskFailed>
    requires { Now (D.told disk.old) (λ held. at ≤ length held.octets) }
    ensures written { OnOk result (Becomes (λ held. settled (spliced at octets.now held.octets)) (D.told disk.old) (D.told disk.new)) }
    ensures within { OnOk result (at + length octets.now < 2 ^ 62) }
    ensures spoiled { OnErr result (Turns (SpoilsAt at (length octets.now)) (D.told disk.old) (D.told disk.new)) }
    ensures settled { OnOk result (D.settled_now disk.new) }
    ensures telling { is_some (D.told disk.new) ≡ is_some (D.told disk.old) }

    // A crash at any moment of the call leaves an image of before, but for the range.
    ensures crash { CrashesAs (λ held. IsImage (touched at (length octets.now) held)) (D.time disk.old, D.time disk.new) (D.told disk.old) (D.told disk.new) }

    ensures later { D.time disk.old ≤ D.time disk.new }
    ensures failed { OnErr result (D.failed disk.new ≡ true) }
    ensures unfailed { OnOk result (D.failed disk.new ≡ false) }
    ensures count { D.faults disk.old ≤ D.faults disk.new }
    ensures cause { OnErr result (Rose (D.faults disk.old) (D.faults disk.new)) }
{
    disk.write(at, octets)?;
    disk.sync()
}
