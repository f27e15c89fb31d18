ghost use Rattle.std.specs.Prelude.{◌≡◌, true, false, is_some, ◌+◌, ◌^◌, ◌<◌, ◌≤◌, ◌↔◌, ℕ, List, [], ◌∷◌, ◌++◌, length, take, drop, OnOk, OnErr, IfOk, IsErrOf};
ghost use Rattle.mj_base.specs.Rising.{Rose};
ghost use Rattle.mj_disk.specs.Content.{IsImage, settled, spliced, touched};
ghost use Rattle.mj_disk.specs.DiskModel.{Now, Becomes, Turns, SpoilsAt, CrashesAs};
ghost use Rattle.mj_journal.specs.FileText.{IsPayload, length_octets};
ghost use Rattle.mj_journal.specs.Appending.{recorded, EndsAt, ReachesTo, Appends, AppendsText, LeavesEither, CrashesOldOrNew};

use super::AppendFault;
use mj_base::{NoMemory, Octets};
use mj_disk::{Disk, DiskFailed, write_synced};
use std::alloc::Global;

/// An opened file, to whose end payloads are appended.
#[derive(Drop)]
pub struct Journal {
    pub(crate) end: u64,
    pub(crate) spent: bool,
    pub ghost small: { end < 2 ^ 62 },
}

impl Journal {
    /// The offset of the closed gate.
    pub fn end(&self) -> u64
        ensures value { result ≡ self.now.end }
        ensures small { result < 2 ^ 62 }
    {
        self.end
    }

    /// Appends a payload of 1 to 2,097,152 bytes: its record behind the closed gate and a sync, then the gate is
    /// opened, and a sync.
    pub fn append<D: Disk>(
        &mut self,
        alloc: Global,
        disk: &mut D,
        payload: &[u8],
    ) -> Result<(), AppendFault>
        requires file { self.old.spent ≡ false → Now (D.told disk.old) (EndsAt self.old.end) }
        requires payload { IsPayload payload.now }

        ensures appended { OnOk result (Appends payload.now self.old.end (D.told disk.old) (D.told disk.new)) }
        ensures text { OnOk result (AppendsText payload.now self.old.end (D.told disk.old) (D.told disk.new)) }
        ensures end { OnOk result (self.new.end ≡ self.old.end + (length payload.now + 5)) }
        ensures small { self.new.end < 2 ^ 62 }
        ensures settled { OnOk result (D.settled_now disk.new) }
        ensures unspent { OnOk result (self.new.spent ≡ false) }
        ensures unfailed { OnOk result (D.failed disk.new ≡ false) }

        // The file is again as the next append asks.
        ensures ready { self.new.spent ≡ false → Now (D.told disk.new) (EndsAt self.new.end) }

        // A crash at any moment of the call leaves the payloads from before it, with the new one or without.
        ensures crash { CrashesOldOrNew payload.now self.old.end (D.time disk.old, D.time disk.new) (D.told disk.old) (D.told disk.new) }

        ensures spent { IsErrOf result AppendFault.Spent ↔ (self.old.spent ≡ true) }
        ensures spent_same { IsErrOf result AppendFault.Spent → (disk.new ≡ disk.old) × (self.new ≡ self.old) }
        ensures no_memory { IsErrOf result AppendFault.NoMemory → (disk.new ≡ disk.old) × (self.new ≡ self.old) }
        ensures cause { IsErrOf result AppendFault.DiskFault → Rose (D.faults disk.old) (D.faults disk.new) }
        ensures failed { IsErrOf result AppendFault.DiskFault → (D.failed disk.new ≡ true) × (self.new.spent ≡ true) × (self.new.end ≡ self.old.end) }
        ensures left { IsErrOf result AppendFault.DiskFault → LeavesEither payload.now self.old.end (D.told disk.old) (D.told disk.new) }

        ensures telling { is_some (D.told disk.new) ≡ is_some (D.told disk.old) }
        ensures later { D.time disk.old ≤ D.time disk.new }
        ensures count { D.faults disk.old ≤ D.faults disk.new }
    {
        if self.spent {
            return Err(AppendFault::Spent);
        }
        let Ok(octets) = record(alloc, payload) else {
            return Err(AppendFault::NoMemory);
        };
        let Ok(()) = put(disk, self.end, octets.as_slice()) else {
            self.spent = true;
            return Err(AppendFault::DiskFault);
        };
        self.end += payload.len() as u64 + 5;
        Ok(())
    }

    /// Reads bytes of the file, up to the closed gate.
    pub fn read<D: Disk>(&self, disk: &mut D, at: u64, into: &mut [u8]) -> Result<(), DiskFailed>
        requires inside { at + length into.old ≤ self.now.end }
        requires file { Now (D.told disk.old) (ReachesTo self.now.end) }
        ensures octets { OnOk result (Now (D.told disk.old) (λ held. into.new ≡ take (length into.old) (drop at held.octets))) }
        ensures same { D.told disk.new ≡ D.told disk.old }
        ensures settled { OnOk result (D.settled_now disk.old → D.settled_now disk.new) }
        ensures later { D.time disk.old ≤ D.time disk.new }
        ensures failed { OnErr result (D.failed disk.new ≡ true) }
        ensures unfailed { OnOk result (D.failed disk.new ≡ D.failed disk.old) }
        ensures count { D.faults disk.old ≤ D.faults disk.new }
        ensures cause { OnErr result (Rose (D.faults disk.old) (D.faults disk.new)) }
    {
        disk.read(at, into)
    }
}

/// A payload's record, and the closed gate behind it.
fn record(alloc: Global, payload: &[u8]) -> Result<Octets, NoMemory>
    requires { IsPayload payload.now }
    ensures spelled { IfOk result (λ octets. octets ≡ recorded payload.now) }
    ensures size { IfOk result (λ octets. length octets ≡ length payload.now + 5) }
{
    let mut octets = Octets::new(alloc);
    push_length(&mut octets, payload.len() as u32)?;
    octets.push_all(payload)?;
    octets.push_all(&[0])?;
    Ok(octets)
}

#[tactic(auto, unfolding(crate::specs::FileText::length_octets))]
fn push_length(octets: &mut Octets, len: u32) -> Result<(), NoMemory>
    ensures { OnOk result (octets.new ≡ octets.old ++ length_octets len) }
{
    octets.push_all(&len.to_be_bytes())
}

/// Writes a record and a closed gate behind the closed gate at `end`, and then opens that.
pub(crate) fn put<D: Disk>(disk: &mut D, end: u64, octets: &[u8]) -> Result<(), DiskFailed>
    requires file { Now (D.told disk.old) (EndsAt end) }
    requires room { end < 2 ^ 62 }
    ensures written { OnOk result (Becomes (λ held. settled (spliced end (1 ∷ []) (spliced (end + 1) octets.now held.octets))) (D.told disk.old) (D.told disk.new)) }
    ensures within { OnOk result (end + 1 + length octets.now < 2 ^ 62) }
    ensures left { OnErr result ((payload : List ℕ) → IsPayload payload → octets.now ≡ recorded payload → LeavesEither payload end (D.told disk.old) (D.told disk.new)) }
    ensures settled { OnOk result (D.settled_now disk.new) }
    ensures crash { (payload : List ℕ) → IsPayload payload → octets.now ≡ recorded payload → CrashesOldOrNew payload end (D.time disk.old, D.time disk.new) (D.told disk.old) (D.told disk.new) }
    ensures telling { is_some (D.told disk.new) ≡ is_some (D.told disk.old) }
    ensures later { D.time disk.old ≤ D.time disk.new }
    ensures failed { OnErr result (D.failed disk.new ≡ true) }
    ensures unfailed { OnOk result (D.failed disk.new ≡ false) }
    ensures count { D.faults disk.old ≤ D.faults disk.new }
    ensures cause { OnErr result (Rose (D.faults disk.old) (D.faults disk.new)) }
{
    write_record(disk, end, octets)?;
    open_gate(disk, end)
}

/// Writes a record and a closed gate behind the gate at `end`, and syncs.
fn write_record<D: Disk>(disk: &mut D, end: u64, octets: &[u8]) -> Result<(), DiskFailed>
    requires inside { Now (D.told disk.old) (λ held. end + 1 ≤ length held.octets) }
    requires room { end < 2 ^ 62 }
    ensures written { OnOk result (Becomes (λ held. settled (spliced (end + 1) octets.now held.octets)) (D.told disk.old) (D.told disk.new)) }
    ensures within { OnOk result (end + 1 + length octets.now < 2 ^ 62) }
    ensures spoiled { OnErr result (Turns (SpoilsAt (end + 1) (length octets.now)) (D.told disk.old) (D.told disk.new)) }
    ensures settled { OnOk result (D.settled_now disk.new) }
    ensures crash { CrashesAs (λ held. IsImage (touched (end + 1) (length octets.now) held)) (D.time disk.old, D.time disk.new) (D.told disk.old) (D.told disk.new) }
    ensures telling { is_some (D.told disk.new) ≡ is_some (D.told disk.old) }
    ensures later { D.time disk.old ≤ D.time disk.new }
    ensures failed { OnErr result (D.failed disk.new ≡ true) }
    ensures unfailed { OnOk result (D.failed disk.new ≡ false) }
    ensures count { D.faults disk.old ≤ D.faults disk.new }
    ensures cause { OnErr result (Rose (D.faults disk.old) (D.faults disk.new)) }
{
    write_synced(disk, end + 1, octets)
}

/// Opens the gate at `end`, and syncs.
fn open_gate<D: Disk>(disk: &mut D, end: u64) -> Result<(), DiskFailed>
    requires { Now (D.told disk.old) (λ held. end ≤ length held.octets) }
    ensures written { OnOk result (Becomes (λ held. settled (spliced end (1 ∷ []) held.octets)) (D.told disk.old) (D.told disk.new)) }
    ensures spoiled { OnErr result (Turns (SpoilsAt end 1) (D.told disk.old) (D.told disk.new)) }
    ensures settled { OnOk result (D.settled_now disk.new) }
    ensures crash { CrashesAs (λ held. IsImage (touched end 1 held)) (D.time disk.old, D.time disk.new) (D.told disk.old) (D.told disk.new) }
    ensures telling { is_some (D.told disk.new) ≡ is_some (D.told disk.old) }
    ensures later { D.time disk.old ≤ D.time disk.new }
    ensures failed { OnErr result (D.failed disk.new ≡ true) }
    ensures unfailed { OnOk result (D.failed disk.new ≡ false) }
    ensures count { D.faults disk.old ≤ D.faults disk.new }
    ensures cause { OnErr result (Rose (D.faults disk.old) (D.faults disk.new)) }
{
    write_synced(disk, end, &[1])
}
