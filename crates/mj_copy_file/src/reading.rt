//! The commands of a file, one after the other.
ghost use Rattle.std.specs.Prelude.{◌≡◌, true, false, ◌<◌, ◌≤◌, length, OnOk, OnErr, IfOk, IfErr, IsErrOf};
ghost use Rattle.mj_base.specs.Rising.{Rose};
ghost use Rattle.mj_disk.specs.DiskModel.{Now};
ghost use Rattle.mj_journal.specs.Opening.{IsReadTo};
ghost use Rattle.mj_store.specs.Opening.{IsUnread};
ghost use Rattle.mj_copy_file.specs.LogReading.{HasAll, HasRead};

use super::spot::Spot;
use mj_base::Octets;
use mj_disk::Disk;
use mj_journal::{OpenFault, Opening};
use mj_tickets::{ApplyFault, Tickets, read_cmd};
use std::alloc::Global;

/// Reads and applies all commands up to the closed gate.
pub(crate) fn read_all<D: Disk>(
    alloc: Global,
    disk: &mut D,
    opening: &mut Opening,
    tickets: &mut Tickets,
    spots: &mut Vec<Spot>,
) -> Result<(), OpenFault>
    requires size { Now (D.told disk.old) (λ held. opening.old.size ≡ length held.octets) }
    requires file { Now (D.told disk.old) (IsReadTo opening.old.base opening.old.next) }
    requires read { HasRead opening.old.base opening.old.next tickets.old.index spots.old.items (D.told disk.old) }
    ensures all { OnOk result (HasAll opening.old.base opening.new.next tickets.new.index spots.new.items (D.told disk.old)) }
    ensures done { OnOk result (opening.new.done ≡ true) }
    ensures unread { IfErr result (λ fault. IsUnread opening.old.base fault (D.told disk.old)) }
    ensures cause { IsErrOf result OpenFault.DiskFault → Rose (D.faults disk.old) (D.faults disk.new) }
    ensures same { D.told disk.new ≡ D.told disk.old }
    ensures settled { OnOk result (D.settled_now disk.old → D.settled_now disk.new) }
    ensures later { D.time disk.old ≤ D.time disk.new }
    ensures count { D.faults disk.old ≤ D.faults disk.new }
{
    let mut payload = Octets::new(alloc);
    'reads: loop {
        if !read_more(alloc, disk, opening, tickets, spots, &mut payload)? {
            return Ok(());
        }
    }
}

/// Reads and applies one command, or answers false at the closed gate.
fn read_more<D: Disk>(
    alloc: Global,
    disk: &mut D,
    opening: &mut Opening,
    tickets: &mut Tickets,
    spots: &mut Vec<Spot>,
    payload: &mut Octets,
) -> Result<bool, OpenFault>
    requires size { Now (D.told disk.old) (λ held. opening.old.size ≡ length held.octets) }
    requires file { Now (D.told disk.old) (IsReadTo opening.old.base opening.old.next) }
    requires read { HasRead opening.old.base opening.old.next tickets.old.index spots.old.items (D.told disk.old) }
    ensures more { IfOk result (λ more. more ≡ true → HasRead opening.old.base opening.new.next tickets.new.index spots.new.items (D.told disk.old)) }
    ensures further { IfOk result (λ more. more ≡ true → opening.old.next < opening.new.next) }
    ensures all { IfOk result (λ more. more ≡ false → HasAll opening.old.base opening.new.next tickets.new.index spots.new.items (D.told disk.old)) }
    ensures done { IfOk result (λ more. more ≡ false → opening.new.done ≡ true) }
    ensures unread { IfErr result (λ fault. IsUnread opening.old.base fault (D.told disk.old)) }
    ensures base { opening.new.base ≡ opening.old.base }
    ensures size { opening.new.size ≡ opening.old.size }
    ensures sized { Now (D.told disk.new) (λ held. opening.new.size ≡ length held.octets) }
    ensures ready { Now (D.told disk.new) (IsReadTo opening.new.base opening.new.next) }
    ensures cause { IsErrOf result OpenFault.DiskFault → Rose (D.faults disk.old) (D.faults disk.new) }
    ensures same { D.told disk.new ≡ D.told disk.old }
    ensures settled { OnOk result (D.settled_now disk.old → D.settled_now disk.new) }
    ensures later { D.time disk.old ≤ D.time disk.new }
    ensures count { D.faults disk.old ≤ D.faults disk.new }
{
    let more = match opening.next(alloc, disk, payload) {
        Ok(more) => more,
        Err(fault) => return Err(fault),
    };
    if !more {
        return Ok(false);
    }
    let Ok(cmd) = read_cmd(alloc, payload.as_slice()) else {
        return Err(OpenFault::NoMemory);
    };
    let Some(cmd) = cmd else {
        return Err(OpenFault::Damaged(opening.gate()));
    };
    let at = opening.gate() + 5;
    match tickets.apply(&cmd, at) {
        Ok(()) => {}
        Err(ApplyFault::Unlawful) => return Err(OpenFault::Damaged(opening.gate())),
        Err(ApplyFault::NoMemory) => return Err(OpenFault::NoMemory),
    }
    match spots.push(Spot {
        at,
        len: payload.len(),
    }) {
        Ok(()) => Ok(true),
        Err(_) => Err(OpenFault::NoMemory),
    }
}
