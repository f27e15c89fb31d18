//! An opened file of lawful notes, which takes one more.
ghost use Rattle.std.specs.Prelude.{◌≡◌, true, false, is_some, ◌≤◌, IfOk, IfErr, IsErrOf};
ghost use Rattle.mj_base.specs.Rising.{Rose};
ghost use Rattle.mj_disk.specs.DiskModel.{CrashesAs, Turns};
ghost use Rattle.mj_journal.specs.Opening.{IsImageOrOpensAlike, KeepsFile};
ghost use Rattle.mj_submit_file.specs.Files.{AppendsNote, IsHeld, IsRefusal, IsUnopened, LeavesEither, NoneLawful, OpensFile, RefusesNote};

use super::advancing::{nothing_yet, with_note};
use super::fault::FileFault;
use super::opening::read_all;
use super::writing::note_payload;
use mj_disk::Disk;
use mj_journal::{AppendFault, Journal, OpenFault, Opening};
use mj_submit::{Note, Progress};
use std::alloc::Global;

/// An open file of lawful notes. After a fault it is given up.
#[derive(Drop)]
pub struct SubmitFile {
    progress: Progress,
    journal: Journal,
}

impl SubmitFile {
    /// Opens the file, and reads all its notes. A file of at most 17 bytes that isn't exactly a header and a closed
    /// gate is made anew, with base 1. A record that is no note, or not the next one of its line, is damage at its gate.
    pub fn open<D: Disk>(alloc: Global, disk: &mut D) -> Result<SubmitFile, OpenFault>
        ensures opened { IfOk result (λ file. OpensFile D.Disk disk.old file disk.new) }

        // Whatever the answer is, bytes that aren't short are as they were.
        ensures kept { Turns KeepsFile (D.told disk.old) (D.told disk.new) }
        ensures unopened { IfErr result (λ fault. IsUnopened fault (D.told disk.old) (D.told disk.new)) }
        ensures cause { IsErrOf result OpenFault.DiskFault → Rose (D.faults disk.old) (D.faults disk.new) }

        // A crash at any moment of the call leaves an image of before, or, of a short file, one that is short too
        // and opens as no notes.
        ensures crash { CrashesAs IsImageOrOpensAlike (D.time disk.old, D.time disk.new) (D.told disk.old) (D.told disk.new) }
        ensures telling { is_some (D.told disk.new) ≡ is_some (D.told disk.old) }
        ensures later { D.time disk.old ≤ D.time disk.new }
        ensures count { D.faults disk.old ≤ D.faults disk.new }
    {
        let mut opening = match Opening::begin(disk, 1) {
            Ok(opening) => opening,
            Err(fault) => return Err(fault),
        };
        let mut progress = nothing_yet();
        match read_all(alloc, disk, &mut opening, &mut progress) {
            Ok(()) => Ok(SubmitFile {
                progress,
                journal: opening.finish(),
            }),
            Err(fault) => Err(fault),
        }
    }

    /// How far it is.
    pub fn progress(&self) -> Progress
        ensures { result ≡ self.now.progress }
    {
        self.progress
    }

    /// Appends a note, and answers true; or false, where it isn't the next one.
    pub fn append<D: Disk>(
        &mut self,
        alloc: Global,
        disk: &mut D,
        note: &Note,
    ) -> Result<bool, FileFault>
        requires held { IsHeld D.Disk self.old disk.old }
        ensures appended { IfOk result (λ done. done ≡ true → AppendsNote D.Disk note.now self.old disk.old self.new disk.new) }
        ensures refused { IfOk result (λ done. done ≡ false → RefusesNote note.now self.old disk.old self.new disk.new) }

        // At each exit, and in a crash at any moment of the call, the file has the notes of before, with the new one or
        // without.
        ensures crash { LeavesEither D.Disk note.now self.old disk.old disk.new }
        ensures cause { IsErrOf result FileFault.Disk → Rose (D.faults disk.old) (D.faults disk.new) }
        ensures telling { is_some (D.told disk.new) ≡ is_some (D.told disk.old) }
        ensures later { D.time disk.old ≤ D.time disk.new }
        ensures count { D.faults disk.old ≤ D.faults disk.new }
    {
        let Some(next) = with_note(&self.progress, note) else {
            return Ok(false);
        };
        let Ok(payload) = note_payload(alloc, note) else {
            return Err(FileFault::NoMemory);
        };
        match self.journal.append(alloc, disk, payload.as_slice()) {
            Ok(()) => {
                self.progress = next;
                Ok(true)
            }
            Err(AppendFault::Spent) => unreachable!(),
            Err(AppendFault::NoMemory) => Err(FileFault::NoMemory),
            Err(AppendFault::DiskFault) => Err(FileFault::Disk),
        }
    }
}
