ghost use Rattle.std.specs.Prelude.{◌≡◌, ◌≤◌, ◌^◌, ◌<◌, true, false, length, [], None, Some, is_some, OnOk, IfOk, IfErr, IsErrOf};
ghost use Rattle.mj_disk.specs.DiskModel.{CrashesAs, Now, Turns};
ghost use Rattle.mj_journal.specs.Opening.{IsImageOrOpensAlike, KeepsFile};
ghost use Rattle.mj_compact.specs.Compacting.{Compacts, IsWhy, LeavesWholeOrNone, fault_of};

use crate::copying::copy_all;
use crate::fault::CompactFault;
use mj_base::Limits;
use mj_disk::Disk;
use mj_journal::{MakeFault, Making, OpenFault};
use mj_store::Store;
use std::alloc::Global;

/// The greatest base of a file.
const MOST_BASE: u64 = 1 << 61;

/// Makes of the old file's open tickets a new file, and counts them. In memory there is one body at a time. An old file of at
/// most 17 bytes may be made anew; it isn't written otherwise, and the new one only where it is empty.
pub fn compact<D: Disk, E: Disk>(
    alloc: Global,
    limits: &Limits,
    old: &mut D,
    new: &mut E,
) -> Result<u64, CompactFault>
    // The new file is settled and whole, has the old next number as its base, and exactly the old tickets.
    ensures done { IfOk result (Compacts D.Disk E.Disk old.old old.new new.new) }
    ensures settled { OnOk result (E.settled_now new.new) }

    // Whatever the answer is: the old file is as it was, or was short, and its images open as they did.
    ensures kept { Turns KeepsFile (D.told old.old) (D.told old.new) }
    ensures crash { CrashesAs IsImageOrOpensAlike (D.time old.old, D.time old.new) (D.told old.old) (D.told old.new) }

    // Whatever the answer is: a new disk that isn't empty isn't written, and of an empty one that is settled each image is no
    // store, or the whole new one.
    ensures unwritten { Now (E.told new.old) (λ held. 0 < length held.octets) → Turns (λ before after. after.octets ≡ before.octets) (E.told new.old) (E.told new.new) }
    ensures images { LeavesWholeOrNone D.Disk E.Disk old.old new.old new.new }

    ensures why { IfErr result (IsWhy D.Disk E.Disk old.old old.new new.old new.new) }
    ensures empty { OnOk result (Now (E.told new.old) (λ held. held.octets ≡ [])) }
{
    let mut store = match Store::open(alloc, limits, old) {
        Ok(store) => store,
        Err(fault) => return Err(fault_in(fault)),
    };
    let base = store.next();
    if base > MOST_BASE {
        return Err(CompactFault::Numbers);
    }
    let mut making = match Making::begin(new, base) {
        Ok(making) => making,
        Err(MakeFault::NotEmpty) => return Err(CompactFault::NotEmpty),
        Err(MakeFault::DiskFault) => return Err(CompactFault::DiskFault),
    };
    let count = match copy_all(alloc, &mut store, old, &mut making, new) {
        Ok(count) => count,
        Err(fault) => return Err(fault),
    };
    match making.finish(new) {
        Ok(_journal) => Ok(count),
        Err(_fault) => Err(CompactFault::DiskFault),
    }
}

fn fault_in(fault: OpenFault) -> CompactFault
    ensures { result ≡ fault_of fault }
{
    match fault {
        OpenFault::NotAStore => CompactFault::Unopened(OpenFault::NotAStore),
        OpenFault::Version(version) => CompactFault::Unopened(OpenFault::Version(version)),
        OpenFault::Damaged(at) => CompactFault::Unopened(OpenFault::Damaged(at)),
        OpenFault::DiskFault => CompactFault::DiskFault,
        OpenFault::NoMemory => CompactFault::NoMemory,
    }
}
