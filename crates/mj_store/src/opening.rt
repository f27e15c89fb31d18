ghost use Rattle.std.specs.Prelude.{◌≡◌, true, false, None, Some, is_some, ◌+◌, ◌*◌, ◌<◌, ◌≤◌, ◌^◌, length, OnOk, OnErr, IfOk, IfErr, IsErrOf, ℕ};
ghost use Rattle.mj_base.specs.Rising.{Rose};
ghost use Rattle.mj_disk.specs.DiskModel.{Now, Turns, CrashesAs};
ghost use Rattle.mj_journal.specs.Appending.{EndsAt};
ghost use Rattle.mj_journal.specs.Opening.{IsReadTo, IsImageOrOpensAlike, KeepsFile};
ghost use Rattle.mj_store.specs.Standing.{IsHeld, IsTelling};
ghost use Rattle.mj_store.specs.Opening.{Begins, FindsDoubt, HasAll, HasRead, IsRefusal, IsUnopened, IsUnread, KeepsOrMakes, LeavesBegun, LeavesInDoubt, NoneInDoubt, NoneLawful, StaysInDoubt};

use super::Store;
use mj_base::{Limits, Octets};
use mj_disk::Disk;
use mj_journal::{OpenFault, Opening};
use mj_tickets::{ApplyFault, Tickets, read_cmd};
use std::alloc::Global;

impl Store {
    /// Opens the file, and reads all its commands. A file of at most 17 bytes that isn't exactly a header and a closed
    /// gate is made anew, with base 1.
    pub fn open<D: Disk>(alloc: Global, limits: &Limits, disk: &mut D) -> Result<Store, OpenFault>
        ensures held { IfOk result (λ store. IsHeld D.Disk store disk.new) }
        ensures limits { IfOk result (λ store. store.limits ≡ limits.now) }
        ensures begins { IfOk result (λ store. Begins D.Disk disk.old store disk.new) }
        ensures found { IfOk result (λ store. FindsDoubt D.Disk disk.old store disk.new) }
        ensures made { OnOk result (Turns KeepsOrMakes (D.told disk.old) (D.told disk.new)) }

        // Whatever the answer is, bytes that aren't short are as they were.
        ensures kept { Turns KeepsFile (D.told disk.old) (D.told disk.new) }

        ensures unopened { IfErr result (λ fault. IsUnopened fault (D.told disk.old) (D.told disk.new)) }
        ensures refused { IfErr result (λ fault. IsRefusal fault → IsTelling D.Disk disk.old → NoneInDoubt D.Disk disk.old) }
        ensures lawful { IfErr result (λ fault. IsRefusal fault → NoneLawful (D.told disk.old)) }
        ensures cause { IsErrOf result OpenFault.DiskFault → Rose (D.faults disk.old) (D.faults disk.new) }
        ensures failed { IsErrOf result OpenFault.DiskFault → D.failed disk.new ≡ true }
        ensures still { IsErrOf result OpenFault.DiskFault → StaysInDoubt D.Disk disk.old disk.new }

        // A crash at any moment of the call leaves an image of before, or, of a short file, one that is short too
        // and opens as no commands.
        ensures crash { CrashesAs IsImageOrOpensAlike (D.time disk.old, D.time disk.new) (D.told disk.old) (D.told disk.new) }
        ensures crash_first { LeavesBegun D.Disk disk.old disk.new }
        ensures crash_again { LeavesInDoubt D.Disk disk.old disk.new }

        ensures telling { is_some (D.told disk.new) ≡ is_some (D.told disk.old) }
        ensures later { D.time disk.old ≤ D.time disk.new }
        ensures count { D.faults disk.old ≤ D.faults disk.new }
    {
        let mut opening = match Opening::begin(disk, 1) {
            Ok(opening) => opening,
            Err(fault) => return Err(fault),
        };
        let mut tickets = Tickets::new(alloc, opening.base());
        match read_all(alloc, disk, &mut opening, &mut tickets) {
            Ok(()) => Ok(Store {
                limits: *limits,
                tickets,
                journal: opening.finish(),
                spent: false,
            }),
            Err(fault) => Err(fault),
        }
    }
}

/// Reads and applies all commands up to the closed gate.
fn read_all<D: Disk>(
    alloc: Global,
    disk: &mut D,
    opening: &mut Opening,
    tickets: &mut Tickets,
) -> Result<(), OpenFault>
    requires size { Now (D.told disk.old) (λ held. opening.old.size ≡ length held.octets) }
    requires file { Now (D.told disk.old) (IsReadTo opening.old.base opening.old.next) }
    requires counted { 4 * tickets.old.index.next ≤ opening.old.next + 2 ^ 63 }
    requires read { HasRead opening.old.base opening.old.next tickets.old.index (D.told disk.old) }
    ensures all { OnOk result (HasAll opening.old.base opening.new.next tickets.new.index (D.told disk.old)) }
    ensures done { OnOk result (opening.new.done ≡ true) }
    ensures counted { OnOk result (4 * tickets.new.index.next ≤ opening.new.next + 2 ^ 63) }
    ensures unread { IfErr result (λ fault. IsUnread opening.old.base fault (D.told disk.old)) }
    ensures cause { IsErrOf result OpenFault.DiskFault → Rose (D.faults disk.old) (D.faults disk.new) }
    ensures failed { IsErrOf result OpenFault.DiskFault → D.failed disk.new ≡ true }
    ensures same { D.told disk.new ≡ D.told disk.old }
    ensures settled { OnOk result (D.settled_now disk.old → D.settled_now disk.new) }
    ensures later { D.time disk.old ≤ D.time disk.new }
    ensures count { D.faults disk.old ≤ D.faults disk.new }
{
    let mut payload = Octets::new(alloc);
    'reads: loop {
        if !read_more(alloc, disk, opening, tickets, &mut payload)? {
            return Ok(());
        }
    }
}

/// Reads and applies one command, or answers false at the closed gate.
fn read_more<D: Disk>(
    alloc: Global,
    disk: &mut D,
    opening: &mut Opening,
    tickets: &mut Tickets,
    payload: &mut Octets,
) -> Result<bool, OpenFault>
    requires size { Now (D.told disk.old) (λ held. opening.old.size ≡ length held.octets) }
    requires file { Now (D.told disk.old) (IsReadTo opening.old.base opening.old.next) }
    requires counted { 4 * tickets.old.index.next ≤ opening.old.next + 2 ^ 63 }
    requires read { HasRead opening.old.base opening.old.next tickets.old.index (D.told disk.old) }
    ensures more { IfOk result (λ more. more ≡ true → HasRead opening.old.base opening.new.next tickets.new.index (D.told disk.old)) }
    ensures further { IfOk result (λ more. more ≡ true → opening.old.next < opening.new.next) }
    ensures all { IfOk result (λ more. more ≡ false → HasAll opening.old.base opening.new.next tickets.new.index (D.told disk.old)) }
    ensures done { IfOk result (λ more. more ≡ false → opening.new.done ≡ true) }
    ensures counted { OnOk result (4 * tickets.new.index.next ≤ opening.new.next + 2 ^ 63) }
    ensures unread { IfErr result (λ fault. IsUnread opening.old.base fault (D.told disk.old)) }
    ensures base { opening.new.base ≡ opening.old.base }
    ensures size { opening.new.size ≡ opening.old.size }
    ensures sized { Now (D.told disk.new) (λ held. opening.new.size ≡ length held.octets) }
    ensures ready { Now (D.told disk.new) (IsReadTo opening.new.base opening.new.next) }
    ensures cause { IsErrOf result OpenFault.DiskFault → Rose (D.faults disk.old) (D.faults disk.new) }
    ensures failed { IsErrOf result OpenFault.DiskFault → D.failed disk.new ≡ true }
    ensures same { D.told disk.new ≡ D.told disk.old }
    ensures settled { OnOk result (D.settled_now disk.old → D.settled_now disk.new) }
    ensures later { D.time disk.old ≤ D.time disk.new }
    ensures count { D.faults disk.old ≤ D.faults disk.new }
{
    let more = match opening.next(alloc, disk, payload) {
        Ok(more) => more,
        Err(fault) => return Err(fault),
    };
    if !more {
        return Ok(false);
    }
    let Ok(cmd) = read_cmd(alloc, payload.as_slice()) else {
        return Err(OpenFault::NoMemory);
    };
    let Some(cmd) = cmd else {
        return Err(OpenFault::Damaged(opening.gate()));
    };
    match tickets.apply(&cmd, opening.gate() + 5) {
        Ok(()) => Ok(true),
        Err(ApplyFault::Unlawful) => Err(OpenFault::Damaged(opening.gate())),
        Err(ApplyFault::NoMemory) => Err(OpenFault::NoMemory),
    }
}
