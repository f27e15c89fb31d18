//! The notes of a file, one after the other.
ghost use Rattle.std.specs.Prelude.{◌≡◌, true, false, ◌<◌, ◌≤◌, length, OnOk, IfOk, IfErr, IsErrOf};
ghost use Rattle.mj_base.specs.Rising.{Rose};
ghost use Rattle.mj_disk.specs.DiskModel.{Now};
ghost use Rattle.mj_journal.specs.Opening.{IsReadTo};
ghost use Rattle.mj_submit_file.specs.Files.{HasAll, HasRead, IsUnread};

use super::advancing::with_note;
use super::reading::read_note;
use mj_base::Octets;
use mj_disk::Disk;
use mj_journal::{OpenFault, Opening};
use mj_submit::Progress;
use std::alloc::Global;

/// Reads all notes up to the closed gate, and how far they come.
pub(crate) fn read_all<D: Disk>(
    alloc: Global,
    disk: &mut D,
    opening: &mut Opening,
    progress: &mut Progress,
) -> Result<(), OpenFault>
    requires size { Now (D.told disk.old) (λ held. opening.old.size ≡ length held.octets) }
    requires file { Now (D.told disk.old) (IsReadTo opening.old.base opening.old.next) }
    requires read { HasRead opening.old.base opening.old.next progress.old (D.told disk.old) }
    ensures all { OnOk result (HasAll opening.old.base opening.new.next progress.new (D.told disk.old)) }
    ensures done { OnOk result (opening.new.done ≡ true) }
    ensures unread { IfErr result (λ fault. IsUnread opening.old.base fault (D.told disk.old)) }
    ensures cause { IsErrOf result OpenFault.DiskFault → Rose (D.faults disk.old) (D.faults disk.new) }
    ensures same { D.told disk.new ≡ D.told disk.old }
    ensures settled { OnOk result (D.settled_now disk.old → D.settled_now disk.new) }
    ensures later { D.time disk.old ≤ D.time disk.new }
    ensures count { D.faults disk.old ≤ D.faults disk.new }
{
    let mut payload = Octets::new(alloc);
    'reads: loop {
        if !read_more(alloc, disk, opening, progress, &mut payload)? {
            return Ok(());
        }
    }
}

/// Reads one note, or answers false at the closed gate.
fn read_more<D: Disk>(
    alloc: Global,
    disk: &mut D,
    opening: &mut Opening,
    progress: &mut Progress,
    payload: &mut Octets,
) -> Result<bool, OpenFault>
    requires size { Now (D.told disk.old) (λ held. opening.old.size ≡ length held.octets) }
    requires file { Now (D.told disk.old) (IsReadTo opening.old.base opening.old.next) }
    requires read { HasRead opening.old.base opening.old.next progress.old (D.told disk.old) }
    ensures more { IfOk result (λ more. more ≡ true → HasRead opening.old.base opening.new.next progress.new (D.told disk.old)) }
    ensures further { IfOk result (λ more. more ≡ true → opening.old.next < opening.new.next) }
    ensures all { IfOk result (λ more. more ≡ false → HasAll opening.old.base opening.new.next progress.new (D.told disk.old)) }
    ensures done { IfOk result (λ more. more ≡ false → opening.new.done ≡ true) }
    ensures unread { IfErr result (λ fault. IsUnread opening.old.base fault (D.told disk.old)) }
    ensures base { opening.new.base ≡ opening.old.base }
    ensures size { opening.new.size ≡ opening.old.size }
    ensures sized { Now (D.told disk.new) (λ held. opening.new.size ≡ length held.octets) }
    ensures ready { Now (D.told disk.new) (IsReadTo opening.new.base opening.new.next) }
    ensures cause { IsErrOf result OpenFault.DiskFault → Rose (D.faults disk.old) (D.faults disk.new) }
    ensures same { D.told disk.new ≡ D.told disk.old }
    ensures settled { OnOk result (D.settled_now disk.old → D.settled_now disk.new) }
    ensures later { D.time disk.old ≤ D.time disk.new }
    ensures count { D.faults disk.old ≤ D.faults disk.new }
{
    let more = match opening.next(alloc, disk, payload) {
        Ok(more) => more,
        Err(fault) => return Err(fault),
    };
    if !more {
        return Ok(false);
    }
    let Some(note) = read_note(payload.as_slice()) else {
        return Err(OpenFault::Damaged(opening.gate()));
    };
    let Some(next) = with_note(progress, &note) else {
        return Err(OpenFault::Damaged(opening.gate()));
    };
    *progress = next;
    Ok(true)
}
