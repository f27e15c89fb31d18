ghost use Rattle.std.specs.Prelude.{◌≡◌, true, false, is_some, ◌+◌, ◌^◌, ◌<◌, ◌≤◌, ◌↔◌, ◌++◌, ◌∷◌, [], length, OnOk, OnErr, IfOk, IsErrOf};
ghost use Rattle.mj_base.specs.Rising.{Rose};
ghost use Rattle.mj_disk.specs.Content.{settled};
ghost use Rattle.mj_disk.specs.DiskModel.{Now, Becomes, Turns, CrashesAs, LeavesOn};
ghost use Rattle.mj_journal.specs.FileText.{IsPayload};
ghost use Rattle.mj_journal.specs.Appending.{EndsAt};
ghost use Rattle.mj_journal.specs.Making.{making_head, IsMade, IsMaking, IsUnfinished, IsImageOrFirst, KeepsUnlessEmpty, BeginsUnfinished, Grows, Finishes, ReadsUnfinishedOrWhole, FinishesOrNot};

use super::header::new_file;
use super::{AppendFault, Journal};
use mj_disk::{Disk, DiskFailed, write_synced};
use std::alloc::Global;

/// Why a new file isn't begun.
#[derive(Clone, Copy, Debug, PartialEq, Eq)]
pub enum MakeFault {
    /// The file isn't empty.
    NotEmpty,
    /// A call of the disk failed.
    DiskFault,
}

/// A new file that is being filled. Until it is finished its first byte is 0, so that it is no store.
#[derive(Drop)]
pub struct Making {
    base: u64,
    journal: Journal,
    pub ghost low: { 1 ≤ base },
    pub ghost high: { base ≤ 2 ^ 61 },
}

impl Making {
    /// Begins a file in format 2 with this base, from 1 to 2^61, on an empty disk. A disk that isn't empty is synced,
    /// and not written.
    pub fn begin<D: Disk>(disk: &mut D, base: u64) -> Result<Making, MakeFault>
        requires low { 1 ≤ base }
        requires high { base ≤ 2 ^ 61 }

        ensures made { IfOk result (λ making. (making.base ≡ base) × (making.journal.end ≡ 16) × (making.journal.spent ≡ false)) }
        ensures empty { OnOk result (Now (D.told disk.old) (λ held. held.octets ≡ [])) }
        ensures written { OnOk result (Becomes (λ held. settled (making_head base ++ 0 ∷ [])) (D.told disk.old) (D.told disk.new)) }
        ensures settled { OnOk result (D.settled_now disk.new) }
        ensures unfailed { OnOk result (D.failed disk.new ≡ false) }

        // The file is as an append asks, and `finish`.
        ensures begun { IfOk result (λ making. Now (D.told disk.new) (IsMade making.base making.journal.end [])) }
        ensures ready { IfOk result (λ making. Now (D.told disk.new) (IsMaking making.base making.journal.end)) }

        ensures not_empty { IsErrOf result MakeFault.NotEmpty → Now (D.told disk.old) (λ held. 0 < length held.octets) }
        ensures unwritten { IsErrOf result MakeFault.NotEmpty → Becomes (λ held. settled held.octets) (D.told disk.old) (D.told disk.new) }
        ensures still { IsErrOf result MakeFault.NotEmpty → D.settled_now disk.new × (D.failed disk.new ≡ false) }
        ensures cause { IsErrOf result MakeFault.DiskFault → Rose (D.faults disk.old) (D.faults disk.new) }
        ensures failed { IsErrOf result MakeFault.DiskFault → D.failed disk.new ≡ true }

        // Whatever the answer is, bytes are as they were, or there were none.
        ensures kept { Turns KeepsUnlessEmpty (D.told disk.old) (D.told disk.new) }

        // A crash at any moment of the call leaves an image of before, or, of an empty disk, at most 17 bytes. So where
        // that is settled, it leaves no store.
        ensures crash { CrashesAs IsImageOrFirst (D.time disk.old, D.time disk.new) (D.told disk.old) (D.told disk.new) }
        ensures unfinished { BeginsUnfinished (D.time disk.old, D.time disk.new) (D.told disk.old) (D.told disk.new) }

        ensures telling { is_some (D.told disk.new) ≡ is_some (D.told disk.old) }
        ensures later { D.time disk.old ≤ D.time disk.new }
        ensures count { D.faults disk.old ≤ D.faults disk.new }
    {
        let Ok(size) = super::opening::settle(disk) else {
            return Err(MakeFault::DiskFault);
        };
        if size > 0 {
            return Err(MakeFault::NotEmpty);
        }
        let mut file = new_file(base);
        file[0] = 0;
        let Ok(()) = write_synced(disk, 0, &file) else {
            return Err(MakeFault::DiskFault);
        };
        Ok(Making {
            base,
            journal: Journal {
                end: 16,
                spent: false,
            },
        })
    }

    /// Appends a payload of 1 to 2,097,152 bytes.
    pub fn append<D: Disk>(
        &mut self,
        alloc: Global,
        disk: &mut D,
        payload: &[u8],
    ) -> Result<(), AppendFault>
        requires file { self.old.journal.spent ≡ false → Now (D.told disk.old) (IsMaking self.old.base self.old.journal.end) }
        requires payload { IsPayload payload.now }

        ensures grown { OnOk result (Grows self.old.base self.old.journal.end self.new.journal.end payload.now (D.told disk.old) (D.told disk.new)) }
        ensures end { OnOk result (self.new.journal.end ≡ self.old.journal.end + (length payload.now + 5)) }
        ensures settled { OnOk result (D.settled_now disk.new) }
        ensures unspent { OnOk result (self.new.journal.spent ≡ false) }
        ensures unfailed { OnOk result (D.failed disk.new ≡ false) }

        // The file is again as the next append asks, and `finish`.
        ensures ready { self.new.journal.spent ≡ false → Now (D.told disk.new) (IsMaking self.new.base self.new.journal.end) }

        // Where each image since some start was no store, each is no store still.
        ensures crash { LeavesOn IsUnfinished (D.time disk.old, D.time disk.new) (D.told disk.old) (D.told disk.new) }

        ensures spent { IsErrOf result AppendFault.Spent ↔ (self.old.journal.spent ≡ true) }
        ensures spent_same { IsErrOf result AppendFault.Spent → (disk.new ≡ disk.old) × (self.new ≡ self.old) }
        ensures no_memory { IsErrOf result AppendFault.NoMemory → (disk.new ≡ disk.old) × (self.new ≡ self.old) }
        ensures cause { IsErrOf result AppendFault.DiskFault → Rose (D.faults disk.old) (D.faults disk.new) }
        ensures failed { IsErrOf result AppendFault.DiskFault → (D.failed disk.new ≡ true) × (self.new.journal.spent ≡ true) × (self.new.journal.end ≡ self.old.journal.end) }
        ensures left { IsErrOf result AppendFault.DiskFault → Now (D.told disk.new) (λ held. IsUnfinished held.octets) }

        ensures base { self.new.base ≡ self.old.base }
        ensures telling { is_some (D.told disk.new) ≡ is_some (D.told disk.old) }
        ensures later { D.time disk.old ≤ D.time disk.new }
        ensures count { D.faults disk.old ≤ D.faults disk.new }
    {
        self.journal.append(alloc, disk, payload)
    }

    /// Writes the file's first byte, and so makes it a store. At a fault the making is given up.
    pub fn finish<D: Disk>(self, disk: &mut D) -> Result<Journal, DiskFailed>
        requires unspent { self.journal.spent ≡ false }
        requires file { self.journal.spent ≡ false → Now (D.told disk.old) (IsMaking self.base self.journal.end) }

        ensures journal { IfOk result (λ journal. (journal.end ≡ self.journal.end) × (journal.spent ≡ false)) }
        ensures finished { OnOk result (Finishes self.base self.journal.end (D.told disk.old) (D.told disk.new)) }
        ensures settled { OnOk result (D.settled_now disk.new) }
        ensures unfailed { OnOk result (D.failed disk.new ≡ false) }

        // The file is as an append of the journal asks.
        ensures ready { IfOk result (λ journal. Now (D.told disk.new) (EndsAt journal.end)) }

        // A crash at any moment of the call leaves no store, or the whole, and so does one since any start since which
        // there was no store.
        ensures crash { FinishesOrNot self.base self.journal.end (D.time disk.old, D.time disk.new) (D.told disk.old) (D.told disk.new) }

        ensures failed { OnErr result (D.failed disk.new ≡ true) }
        ensures left { OnErr result (ReadsUnfinishedOrWhole self.base self.journal.end (D.told disk.old) (D.told disk.new)) }
        ensures cause { OnErr result (Rose (D.faults disk.old) (D.faults disk.new)) }
        ensures telling { is_some (D.told disk.new) ≡ is_some (D.told disk.old) }
        ensures later { D.time disk.old ≤ D.time disk.new }
        ensures count { D.faults disk.old ≤ D.faults disk.new }
    {
        write_synced(disk, 0, b"M")?;
        Ok(self.journal)
    }
}
