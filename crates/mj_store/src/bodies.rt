ghost use Rattle.std.specs.Prelude.{◌≡◌, ◌≢◌, true, false, Some, None, [], ◌+◌, ◌≤◌, ◌↔◌, length, vec_len, OnOk, IfOk, IfErr, IsErrOf};
ghost use Rattle.mj_base.specs.Rising.{Rose};
ghost use Rattle.mj_tickets.specs.Fold.{ticket_of};
ghost use Rattle.mj_store.specs.Standing.{Doubts, IsHeld, IsTelling, Keeps, LeavesWithOrWithout};
ghost use Rattle.mj_store.specs.Bodies.{body_at, reply_at, GivesBody, GivesReply, HasText, IsDamage, IsHarmless, IsReadBody, IsUnreadable};

use super::{BodyFault, Store};
use mj_base::{Frames, NoMemory};
use mj_disk::Disk;
use mj_tickets::{Place, read_body};
use std::alloc::Global;

impl Store {
    /// Reads the body of an open ticket from the file.
    pub fn body<D: Disk>(
        &mut self,
        alloc: Global,
        disk: &mut D,
        number: u64,
    ) -> Result<Frames, BodyFault>
        requires open { ticket_of number self.old.index ≢ None }
        requires held { self.old.spent ≡ false → IsHeld D.Disk self.old disk.old }

        ensures body { IfOk result (GivesBody D.Disk number self.old disk.old) }
        ensures read { IfOk result (IsReadBody (body_at number self.old.index) (D.told disk.old)) }
        ensures text { IfOk result (HasText (body_at number self.old.index)) }
        ensures kept { OnOk result (Keeps D.Disk self.old disk.old self.new disk.new) }
        ensures held { OnOk result (IsHeld D.Disk self.new disk.new) }
        ensures same { OnOk result (self.new ≡ self.old) }

        ensures spent { IsErrOf result BodyFault.Spent ↔ (self.old.spent ≡ true) }
        ensures spent_same { IsErrOf result BodyFault.Spent → (self.new ≡ self.old) × (disk.new ≡ disk.old) }
        ensures harmless { IfErr result (λ fault. IsHarmless fault → (self.new ≡ self.old) × Keeps D.Disk self.old disk.old self.new disk.new) }

        ensures ended { IsErrOf result BodyFault.DiskFault → self.new ≡ record self.old { spent = true } }
        ensures doubt { IsErrOf result BodyFault.DiskFault → Doubts D.Disk [] self.old disk.old disk.new }
        ensures cause { IsErrOf result BodyFault.DiskFault → Rose (D.faults disk.old) (D.faults disk.new) }

        // Damage comes exactly where the bytes that were read are no body, and never on a disk that tells.
        ensures refused { IfErr result (IsUnreadable (body_at number self.old.index) (D.told disk.old)) }
        ensures whole { IfErr result (λ fault. IsDamage fault → IsTelling D.Disk disk.old → ⊥) }

        ensures told { D.told disk.new ≡ D.told disk.old }
        ensures crash { LeavesWithOrWithout D.Disk [] self.old disk.old disk.new }
        ensures later { D.time disk.old ≤ D.time disk.new }
        ensures count { D.faults disk.old ≤ D.faults disk.new }
    {
        match self.tickets.body_place(number) {
            Some(place) => self.read_at(alloc, disk, place),
            None => unreachable!(),
        }
    }

    /// Reads the stored reply of a ticket from the file.
    pub fn reply_body<D: Disk>(
        &mut self,
        alloc: Global,
        disk: &mut D,
        number: u64,
    ) -> Result<Frames, BodyFault>
        requires stored { reply_at number self.old.index ≢ None }
        requires held { self.old.spent ≡ false → IsHeld D.Disk self.old disk.old }

        ensures body { IfOk result (GivesReply D.Disk number self.old disk.old) }
        ensures read { IfOk result (IsReadBody (reply_at number self.old.index) (D.told disk.old)) }
        ensures text { IfOk result (HasText (reply_at number self.old.index)) }
        ensures kept { OnOk result (Keeps D.Disk self.old disk.old self.new disk.new) }
        ensures held { OnOk result (IsHeld D.Disk self.new disk.new) }
        ensures same { OnOk result (self.new ≡ self.old) }

        ensures spent { IsErrOf result BodyFault.Spent ↔ (self.old.spent ≡ true) }
        ensures spent_same { IsErrOf result BodyFault.Spent → (self.new ≡ self.old) × (disk.new ≡ disk.old) }
        ensures harmless { IfErr result (λ fault. IsHarmless fault → (self.new ≡ self.old) × Keeps D.Disk self.old disk.old self.new disk.new) }

        ensures ended { IsErrOf result BodyFault.DiskFault → self.new ≡ record self.old { spent = true } }
        ensures doubt { IsErrOf result BodyFault.DiskFault → Doubts D.Disk [] self.old disk.old disk.new }
        ensures cause { IsErrOf result BodyFault.DiskFault → Rose (D.faults disk.old) (D.faults disk.new) }

        // Damage comes exactly where the bytes that were read are no body, and never on a disk that tells.
        ensures refused { IfErr result (IsUnreadable (reply_at number self.old.index) (D.told disk.old)) }
        ensures whole { IfErr result (λ fault. IsDamage fault → IsTelling D.Disk disk.old → ⊥) }

        ensures told { D.told disk.new ≡ D.told disk.old }
        ensures crash { LeavesWithOrWithout D.Disk [] self.old disk.old disk.new }
        ensures later { D.time disk.old ≤ D.time disk.new }
        ensures count { D.faults disk.old ≤ D.faults disk.new }
    {
        match self.tickets.reply_place(number) {
            Some(place) => self.read_at(alloc, disk, place),
            None => unreachable!(),
        }
    }

    /// Reads a body at a place in front of the closed gate. The memory for its bytes is taken before the disk is read,
    /// that for its frames behind it.
    fn read_at<D: Disk>(
        &mut self,
        alloc: Global,
        disk: &mut D,
        place: Place,
    ) -> Result<Frames, BodyFault>
        requires inside { self.old.spent ≡ false → place.at + place.len ≤ self.old.end }
        requires held { self.old.spent ≡ false → IsHeld D.Disk self.old disk.old }

        ensures read { IfOk result (IsReadBody (Some place) (D.told disk.old)) }
        ensures text { IfOk result (HasText (Some place)) }
        ensures kept { OnOk result (Keeps D.Disk self.old disk.old self.new disk.new) }
        ensures held { OnOk result (IsHeld D.Disk self.new disk.new) }
        ensures same { OnOk result (self.new ≡ self.old) }

        ensures spent { IsErrOf result BodyFault.Spent ↔ (self.old.spent ≡ true) }
        ensures spent_same { IsErrOf result BodyFault.Spent → (self.new ≡ self.old) × (disk.new ≡ disk.old) }
        ensures harmless { IfErr result (λ fault. IsHarmless fault → (self.new ≡ self.old) × Keeps D.Disk self.old disk.old self.new disk.new) }

        ensures ended { IsErrOf result BodyFault.DiskFault → self.new ≡ record self.old { spent = true } }
        ensures doubt { IsErrOf result BodyFault.DiskFault → Doubts D.Disk [] self.old disk.old disk.new }
        ensures cause { IsErrOf result BodyFault.DiskFault → Rose (D.faults disk.old) (D.faults disk.new) }
        ensures refused { IfErr result (IsUnreadable (Some place) (D.told disk.old)) }

        ensures told { D.told disk.new ≡ D.told disk.old }
        ensures crash { LeavesWithOrWithout D.Disk [] self.old disk.old disk.new }
        ensures later { D.time disk.old ≤ D.time disk.new }
        ensures count { D.faults disk.old ≤ D.faults disk.new }
    {
        if self.spent {
            return Err(BodyFault::Spent);
        }
        let Ok(mut octets) = zeros(alloc, place.len as usize) else {
            return Err(BodyFault::NoMemory);
        };
        let Ok(()) = self.journal.read(disk, place.at, octets.as_mut_slice()) else {
            self.spent = true;
            return Err(BodyFault::DiskFault);
        };
        let Ok(body) = read_body(alloc, octets.as_slice()) else {
            return Err(BodyFault::NoMemory);
        };
        match body {
            Some(frames) => Ok(frames),
            None => Err(BodyFault::Damaged(place.at)),
        }
    }
}

fn zeros(alloc: Global, len: usize) -> Result<Vec<u8>, NoMemory>
    ensures { IfOk result (λ list. (length list.items ≡ len) × (vec_len list ≡ len)) }
{
    let mut list = Vec::new(alloc);
    list.resize(len, 0)?;
    Ok(list)
}
