ghost use Rattle.std.specs.Prelude.{◌≡◌, true, ◌∷◌, [], ◌++◌, OnOk, IfOk, IfErr};
ghost use Rattle.mj_base.specs.declared.event.Note.TheVariants as notes;
ghost use Rattle.mj_base.specs.declared.event.Out.TheVariants as out;
ghost use Rattle.mj_machine.specs.Acts.{quiet};
ghost use Rattle.mj_machine.specs.DiskActs.{opening};
ghost use Rattle.mj_machine.specs.MachineState.{State};
ghost use Rattle.mj_store.specs.Opening.{has_moved};
ghost use Rattle.mj_titanic.specs.Acting.{Did, Stopped, around, parts};
ghost use Rattle.mj_titanic.specs.Reopening.{core_reopened};
ghost use Rattle.mj_keeper.specs.Standing.{IsSound, is_open, told_on};
ghost use Rattle.mj_keeper.specs.declared.keeper.Shelf.TheVariants as shelves;
ghost use Rattle.mj_titanic.specs.Onward.{SameKeeper};

use crate::acts::Keeping;
use crate::fault::ActFault;
use mj_base::{NoMemory, Note, Out};
use mj_disk::Disk;
use mj_keeper::Shelf;
use mj_store::{OpenFault, Store};
use std::alloc::Global;

impl Keeping {
    /// Opens the store again where it is shut. False where a call of the disk failed: the store stays shut then. Behind
    /// an opening the caller queues the tickets that wait.
    pub fn open_again<D: Disk>(
        &mut self,
        alloc: Global,
        disk: &mut D,
        outs: &mut Vec<Out>,
    ) -> Result<bool, ActFault>
        requires stored { (told_on self.old.keeper.shelf).stored ≡ true }
        requires sound { IsSound D.Disk self.old.keeper disk.old }
        ensures done { OnOk result ((core : State) → Did D.Disk (parts core self.old) disk.old (parts (core_reopened self.old.keeper.shelf self.new.keeper.shelf core) self.new) disk.new outs.old.items outs.new.items (opening quiet quiet) (around (opening quiet quiet))) }
        ensures stopped { IfErr result (λ fault. (core : State) → Stopped D.Disk fault (parts core self.old) disk.old disk.new (around (opening quiet quiet))) }
        ensures sound { OnOk result (IsSound D.Disk self.new.keeper disk.new) }
        ensures usable { IfOk result (λ opened. is_open self.new.keeper.shelf ≡ opened) }
        ensures still_stored { OnOk result ((told_on self.new.keeper.shelf).stored ≡ true) }
        ensures same_keeper { SameKeeper self.old.keeper self.new.keeper }
    {
        let end = match &self.keeper.shelf {
            Shelf::Absent => unreachable!(),
            Shelf::Open(_store) => return Ok(true),
            Shelf::Shut(end) => *end,
        };
        let Some(next) = self.acts.checked_add(1) else {
            return Err(ActFault::NoMemory);
        };
        match Store::open(alloc, &self.keeper.limits, disk) {
            Ok(store) => match self.opened(store, end, next, outs) {
                Ok(()) => Ok(true),
                Err(NoMemory) => Err(ActFault::NoMemory),
            },
            Err(OpenFault::NotAStore) => Err(ActFault::Refused(OpenFault::NotAStore)),
            Err(OpenFault::Version(version)) => Err(ActFault::Refused(OpenFault::Version(version))),
            Err(OpenFault::Damaged(at)) => Err(ActFault::Refused(OpenFault::Damaged(at))),
            Err(OpenFault::NoMemory) => Err(ActFault::NoMemory),
            Err(OpenFault::DiskFault) => match self.shut(end, next, outs) {
                Ok(()) => Ok(false),
                Err(NoMemory) => Err(ActFault::NoMemory),
            },
        }
    }

    /// The act has opened the store again, whose closed gate stood at this offset before; the next act has this number.
    fn opened(
        &mut self,
        store: Store,
        end: u64,
        next: u32,
        outs: &mut Vec<Out>,
    ) -> Result<(), NoMemory>
        ensures keeper { OnOk result (self.new.keeper ≡ record self.old.keeper { shelf = shelves.Open store }) }
        ensures acts { OnOk result (self.new.acts ≡ next) }
        ensures note { OnOk result (outs.new.items ≡ outs.old.items ++ out.Note (notes.Again self.old.acts (has_moved end store)) ∷ []) }
        ensures same_keeper { SameKeeper self.old.keeper self.new.keeper }
    {
        let found = store.end() != end;
        outs.push(Out::Note(Note::Again(self.acts, found)))?;
        self.keeper.shelf = Shelf::Open(store);
        self.acts = next;
        Ok(())
    }
}
