//! An opened file of lawful commands, whose payloads are read by their number, and which takes one more.
ghost use Rattle.std.specs.Prelude.{◌≡◌, true, false, Some, is_some, ◌+◌, ◌<◌, ◌≤◌, ◌^◌, List, ℕ, length, slice_index_or, [], OnOk, OnErr, IfOk, IfErr, IsErrOf};
ghost use Rattle.mj_base.specs.Rising.{Rose};
ghost use Rattle.mj_disk.specs.DiskModel.{CrashesAs, Now, Turns};
ghost use Rattle.mj_journal.specs.Appending.{Appends, CrashesOldOrNew, EndsAt};
ghost use Rattle.mj_journal.specs.FileText.{IsPayload, StandsFor};
ghost use Rattle.mj_journal.specs.Opening.{IsImageOrOpensAlike, KeepsFile};
ghost use Rattle.mj_store.specs.Opening.{IsUnopened};
ghost use Rattle.mj_copy_file.specs.Logs.{AppendsOne, IsEither, IsHeld, IsKnown, Knows, LeavesEither, OpensLog, RefusesOne};

use super::fault::LogFault;
use super::reading::read_all;
use super::spot::Spot;
use mj_base::{NoMemory, Octets};
use mj_disk::{Disk, SIZE_LIMIT};
use mj_journal::{AppendFault, Journal, OpenFault, Opening};
use mj_tickets::{ApplyFault, Tickets, read_cmd};
use std::alloc::Global;

/// An open file of lawful ticket commands. After a fault it is given up.
#[derive(Drop)]
pub struct Log {
    base: u64,
    tickets: Tickets,
    journal: Journal,
    /// Where the payloads stand, the first one first.
    spots: Vec<Spot>,
}

impl Log {
    /// Opens the file, and reads all its commands. A file of at most 17 bytes that isn't exactly a header and a closed
    /// gate is made anew, with this base.
    pub fn open<D: Disk>(alloc: Global, disk: &mut D, base: u64) -> Result<Log, OpenFault>
        requires low { 1 ≤ base }
        requires high { base ≤ 2 ^ 61 }
        ensures opened { IfOk result (λ log. OpensLog D.Disk base disk.old log disk.new) }

        // Whatever the answer is, bytes that aren't short are as they were.
        ensures kept { Turns KeepsFile (D.told disk.old) (D.told disk.new) }
        ensures unopened { IfErr result (λ fault. IsUnopened fault (D.told disk.old) (D.told disk.new)) }
        ensures cause { IsErrOf result OpenFault.DiskFault → Rose (D.faults disk.old) (D.faults disk.new) }

        // A crash at any moment of the call leaves an image of before, or, of a short file, one that is short too
        // and opens as no commands.
        ensures crash { CrashesAs IsImageOrOpensAlike (D.time disk.old, D.time disk.new) (D.told disk.old) (D.told disk.new) }
        ensures telling { is_some (D.told disk.new) ≡ is_some (D.told disk.old) }
        ensures later { D.time disk.old ≤ D.time disk.new }
        ensures count { D.faults disk.old ≤ D.faults disk.new }
    {
        let mut opening = match Opening::begin(disk, base) {
            Ok(opening) => opening,
            Err(fault) => return Err(fault),
        };
        let found = opening.base();
        let mut tickets = Tickets::new(alloc, found);
        let mut spots = Vec::new(alloc);
        match read_all(alloc, disk, &mut opening, &mut tickets, &mut spots) {
            Ok(()) => Ok(Log {
                base: found,
                tickets,
                journal: opening.finish(),
                spots,
            }),
            Err(fault) => Err(fault),
        }
    }

    /// The base of the file.
    pub fn base(&self) -> u64
        ensures { result ≡ self.now.base }
    {
        self.base
    }

    /// How many commands it has.
    pub fn count(&self) -> u64
        requires { IsKnown self.now }
        ensures count { (payloads : List (List ℕ)) → Knows payloads self.now → result ≡ length payloads }
        ensures small { result < 2 ^ 62 }
        ensures spots { result ≡ length self.now.spots.items }
    {
        self.spots.len() as u64
    }

    /// Reads the payload with this offset, counted from 0.
    pub fn payload<D: Disk>(&self, alloc: Global, disk: &mut D, n: u64) -> Result<Octets, LogFault>
        requires inside { n < length self.now.spots.items }
        requires held { IsHeld D.Disk self.now disk.old }
        ensures payload { IfOk result (λ octets. Now (D.told disk.old) (λ held. (payloads : List (List ℕ)) → Knows payloads self.now → StandsFor self.now.base payloads held.octets → octets ≡ slice_index_or payloads n [])) }
        ensures same { D.told disk.new ≡ D.told disk.old }
        ensures held { OnOk result (IsHeld D.Disk self.now disk.new) }
        ensures cause { IsErrOf result LogFault.Disk → Rose (D.faults disk.old) (D.faults disk.new) }
        ensures later { D.time disk.old ≤ D.time disk.new }
        ensures count { D.faults disk.old ≤ D.faults disk.new }
    {
        let spot = self.spots[n as usize];
        let Ok(mut room) = zeros(alloc, spot.len) else {
            return Err(LogFault::NoMemory);
        };
        let Ok(()) = disk.read(spot.at, room.as_mut_slice()) else {
            return Err(LogFault::Disk);
        };
        Ok(Octets::from_vec(room))
    }

    /// Appends a payload, and answers true; or false, where it is no command, or an unlawful one behind those before.
    pub fn append<D: Disk>(
        &mut self,
        alloc: Global,
        disk: &mut D,
        payload: &[u8],
    ) -> Result<bool, LogFault>
        requires held { IsHeld D.Disk self.old disk.old }
        ensures appended { IfOk result (λ done. done ≡ true → AppendsOne D.Disk payload.now self.old disk.old self.new disk.new) }
        ensures refused { IfOk result (λ done. done ≡ false → RefusesOne D.Disk payload.now self.old disk.old self.new disk.new) }
        ensures base { self.new.base ≡ self.old.base }

        // At each exit, and in a crash at any moment of the call, the file has the commands of before, with the new one
        // or without.
        ensures crash { LeavesEither D.Disk payload.now self.old disk.old disk.new }
        ensures cause { IsErrOf result LogFault.Disk → Rose (D.faults disk.old) (D.faults disk.new) }
        ensures telling { is_some (D.told disk.new) ≡ is_some (D.told disk.old) }
        ensures later { D.time disk.old ≤ D.time disk.new }
        ensures count { D.faults disk.old ≤ D.faults disk.new }
    {
        let Ok(cmd) = read_cmd(alloc, payload) else {
            return Err(LogFault::NoMemory);
        };
        let Some(cmd) = cmd else {
            return Ok(false);
        };
        let at = self.journal.end() + 5;
        if SIZE_LIMIT <= at + payload.len() as u64 {
            return match write(alloc, &mut self.journal, disk, payload) {
                Ok(()) => unreachable!(),
                Err(fault) => Err(fault),
            };
        }
        match self.tickets.apply(&cmd, at) {
            Ok(()) => {}
            Err(ApplyFault::Unlawful) => return Ok(false),
            Err(ApplyFault::NoMemory) => return Err(LogFault::NoMemory),
        }
        let Ok(()) = self.spots.push(Spot {
            at,
            len: payload.len(),
        })
        else {
            return Err(LogFault::NoMemory);
        };
        match write(alloc, &mut self.journal, disk, payload) {
            Ok(()) => Ok(true),
            Err(fault) => Err(fault),
        }
    }
}

/// Appends a payload to the file. One that would end at the size limit or behind it fails.
fn write<D: Disk>(
    alloc: Global,
    journal: &mut Journal,
    disk: &mut D,
    payload: &[u8],
) -> Result<(), LogFault>
    requires payload { IsPayload payload.now }
    requires file { Now (D.told disk.old) (EndsAt journal.old.end) }
    requires unspent { journal.old.spent ≡ false }
    ensures appended { OnOk result (Appends payload.now journal.old.end (D.told disk.old) (D.told disk.new)) }
    ensures end { OnOk result (journal.new.end ≡ journal.old.end + (length payload.now + 5)) }
    ensures small { journal.new.end < 2 ^ 62 }
    ensures settled { OnOk result (D.settled_now disk.new) }
    ensures unspent { OnOk result (journal.new.spent ≡ false) }
    ensures crash { CrashesOldOrNew payload.now journal.old.end (D.time disk.old, D.time disk.new) (D.told disk.old) (D.told disk.new) }
    ensures cause { IsErrOf result LogFault.Disk → Rose (D.faults disk.old) (D.faults disk.new) }
    ensures telling { is_some (D.told disk.new) ≡ is_some (D.told disk.old) }
    ensures later { D.time disk.old ≤ D.time disk.new }
    ensures count { D.faults disk.old ≤ D.faults disk.new }
{
    match journal.append(alloc, disk, payload) {
        Ok(()) => Ok(()),
        Err(AppendFault::Spent) => unreachable!(),
        Err(AppendFault::NoMemory) => Err(LogFault::NoMemory),
        Err(AppendFault::DiskFault) => Err(LogFault::Disk),
    }
}

fn zeros(alloc: Global, len: usize) -> Result<Vec<u8>, NoMemory>
    ensures { IfOk result (λ list. length list.items ≡ len) }
{
    let mut list = Vec::new(alloc);
    list.resize(len, 0)?;
    Ok(list)
}
