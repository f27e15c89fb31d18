ghost use Rattle.std.specs.Prelude.{◌≡◌, ◌≢◌, true, false, None, Some, is_some, List, [], ◌∷◌, ◌++◌, OnOk, IfOk, IfErr, IfSome};
ghost use Rattle.mj_base.specs.declared.event.Note.TheVariants as notes;
ghost use Rattle.mj_base.specs.declared.event.Out.TheVariants as out;
ghost use Rattle.mj_machine.specs.Acts.{quiet};
ghost use Rattle.mj_machine.specs.DiskActs.{appending, reading};
ghost use Rattle.mj_machine.specs.MachineState.{State};
ghost use Rattle.mj_store.specs.Bodies.{reply_at};
ghost use Rattle.mj_store.specs.Commands.{CanBeKept, is_pending_at};
ghost use Rattle.mj_tickets.specs.Fold.{ticket_of};
ghost use Rattle.mj_tickets.specs.declared.command.TicketCmd.TheVariants as cmds;
ghost use Rattle.mj_titanic.specs.Acting.{Did, Stopped, around, core_behind, parts};
ghost use Rattle.mj_keeper.specs.Standing.{IsOpenWith, IsSound, IsTicketBody, IsTicketReply, is_open, told_on};
ghost use Rattle.mj_keeper.specs.declared.keeper.Shelf.TheVariants as shelves;
ghost use Rattle.mj_titanic.specs.Onward.{SameKeeper};

use crate::fault::ActFault;
use mj_base::{Frames, NoMemory, Note, Out};
use mj_disk::Disk;
use mj_keeper::{Keeper, Shelf};
use mj_store::{AppendFault, BodyFault, OpenFault};
use std::alloc::Global;

/// What keeps tickets, inside an event, and how many acts on the disk the event has made. Where an act fails, the caller
/// drops what tickets have queued.
#[derive(Drop)]
pub struct Keeping {
    pub keeper: Keeper,
    pub acts: u32,
}

impl Keeping {
    /// Stores the reply of a pending ticket. False where a call of the disk failed: the store is shut then.
    pub fn store_reply<D: Disk>(
        &mut self,
        alloc: Global,
        disk: &mut D,
        number: u64,
        body: &Frames,
        outs: &mut Vec<Out>,
    ) -> Result<bool, ActFault>
        requires body { CanBeKept body.now }
        requires open { IsOpenWith (λ held. is_pending_at number held.index ≡ true) self.old.keeper.shelf }
        requires sound { IsSound D.Disk self.old.keeper disk.old }
        ensures done { IfOk result (λ kept. (core : State) → Did D.Disk (parts core self.old) disk.old (parts (core_behind kept core) self.new) disk.new outs.old.items outs.new.items (appending (cmds.Store number body.now) quiet quiet) (around (appending (cmds.Store number body.now) quiet quiet))) }
        ensures stopped { IfErr result (λ fault. (core : State) → Stopped D.Disk fault (parts core self.old) disk.old disk.new (around (appending (cmds.Store number body.now) quiet quiet))) }
        ensures sound { OnOk result (IsSound D.Disk self.new.keeper disk.new) }
        ensures usable { IfOk result (λ kept. is_open self.new.keeper.shelf ≡ kept) }
        ensures stored { OnOk result ((told_on self.new.keeper.shelf).stored ≡ true) }
        ensures same_keeper { SameKeeper self.old.keeper self.new.keeper }
    {
        let Shelf::Open(store) = &mut self.keeper.shelf else {
            unreachable!();
        };
        let Some(next) = self.acts.checked_add(1) else {
            return Err(ActFault::NoMemory);
        };
        let end = store.end();
        match store.store_reply(alloc, disk, number, body) {
            Ok(()) => {
                self.acts = next;
                Ok(true)
            }
            Err(AppendFault::Spent) => unreachable!(),
            Err(AppendFault::NoMemory) => Err(ActFault::NoMemory),
            Err(AppendFault::DiskFault) => match self.shut(end, next, outs) {
                Ok(()) => Ok(false),
                Err(NoMemory) => Err(ActFault::NoMemory),
            },
        }
    }

    /// Closes an open ticket. False where a call of the disk failed: the store is shut then.
    pub fn close_ticket<D: Disk>(
        &mut self,
        alloc: Global,
        disk: &mut D,
        number: u64,
        outs: &mut Vec<Out>,
    ) -> Result<bool, ActFault>
        requires open { IsOpenWith (λ held. ticket_of number held.index ≢ None) self.old.keeper.shelf }
        requires sound { IsSound D.Disk self.old.keeper disk.old }
        ensures done { IfOk result (λ kept. (core : State) → Did D.Disk (parts core self.old) disk.old (parts (core_behind kept core) self.new) disk.new outs.old.items outs.new.items (appending (cmds.Close number) quiet quiet) (around (appending (cmds.Close number) quiet quiet))) }
        ensures stopped { IfErr result (λ fault. (core : State) → Stopped D.Disk fault (parts core self.old) disk.old disk.new (around (appending (cmds.Close number) quiet quiet))) }
        ensures sound { OnOk result (IsSound D.Disk self.new.keeper disk.new) }
        ensures usable { IfOk result (λ kept. is_open self.new.keeper.shelf ≡ kept) }
        ensures stored { OnOk result ((told_on self.new.keeper.shelf).stored ≡ true) }
        ensures same_keeper { SameKeeper self.old.keeper self.new.keeper }
    {
        let Shelf::Open(store) = &mut self.keeper.shelf else {
            unreachable!();
        };
        let Some(next) = self.acts.checked_add(1) else {
            return Err(ActFault::NoMemory);
        };
        let end = store.end();
        match store.close(alloc, disk, number) {
            Ok(()) => {
                self.acts = next;
                Ok(true)
            }
            Err(AppendFault::Spent) => unreachable!(),
            Err(AppendFault::NoMemory) => Err(ActFault::NoMemory),
            Err(AppendFault::DiskFault) => match self.shut(end, next, outs) {
                Ok(()) => Ok(false),
                Err(NoMemory) => Err(ActFault::NoMemory),
            },
        }
    }

    /// Reads the body of an open ticket. None where a call of the disk failed: the store is shut then.
    pub fn read_open<D: Disk>(
        &mut self,
        alloc: Global,
        disk: &mut D,
        number: u64,
        outs: &mut Vec<Out>,
    ) -> Result<Option<Frames>, ActFault>
        requires open { IsOpenWith (λ held. ticket_of number held.index ≢ None) self.old.keeper.shelf }
        requires sound { IsSound D.Disk self.old.keeper disk.old }
        ensures done { IfOk result (λ read. (core : State) → Did D.Disk (parts core self.old) disk.old (parts (core_behind (is_some read) core) self.new) disk.new outs.old.items outs.new.items (reading quiet quiet) (around (reading quiet quiet))) }
        ensures body { IfOk result (λ read. IfSome read (IsTicketBody D.Disk number self.old.keeper disk.old)) }
        ensures stopped { IfErr result (λ fault. (core : State) → Stopped D.Disk fault (parts core self.old) disk.old disk.new (around (reading quiet quiet))) }
        ensures sound { OnOk result (IsSound D.Disk self.new.keeper disk.new) }
        ensures usable { IfOk result (λ read. is_open self.new.keeper.shelf ≡ is_some read) }
        ensures stored { OnOk result ((told_on self.new.keeper.shelf).stored ≡ true) }
        ensures same_keeper { SameKeeper self.old.keeper self.new.keeper }
    {
        let Shelf::Open(store) = &mut self.keeper.shelf else {
            unreachable!();
        };
        let Some(next) = self.acts.checked_add(1) else {
            return Err(ActFault::NoMemory);
        };
        let end = store.end();
        match store.body(alloc, disk, number) {
            Ok(frames) => {
                self.acts = next;
                Ok(Some(frames))
            }
            Err(BodyFault::Spent) => unreachable!(),
            Err(BodyFault::NoMemory) => Err(ActFault::NoMemory),
            Err(BodyFault::Damaged(at)) => Err(ActFault::Refused(OpenFault::Damaged(at))),
            Err(BodyFault::DiskFault) => match self.shut(end, next, outs) {
                Ok(()) => Ok(None),
                Err(NoMemory) => Err(ActFault::NoMemory),
            },
        }
    }

    /// Reads the stored reply of a ticket. None where a call of the disk failed: the store is shut then.
    pub fn read_reply<D: Disk>(
        &mut self,
        alloc: Global,
        disk: &mut D,
        number: u64,
        outs: &mut Vec<Out>,
    ) -> Result<Option<Frames>, ActFault>
        requires stored { IsOpenWith (λ held. reply_at number held.index ≢ None) self.old.keeper.shelf }
        requires sound { IsSound D.Disk self.old.keeper disk.old }
        ensures done { IfOk result (λ read. (core : State) → Did D.Disk (parts core self.old) disk.old (parts (core_behind (is_some read) core) self.new) disk.new outs.old.items outs.new.items (reading quiet quiet) (around (reading quiet quiet))) }
        ensures body { IfOk result (λ read. IfSome read (IsTicketReply D.Disk number self.old.keeper disk.old)) }
        ensures stopped { IfErr result (λ fault. (core : State) → Stopped D.Disk fault (parts core self.old) disk.old disk.new (around (reading quiet quiet))) }
        ensures sound { OnOk result (IsSound D.Disk self.new.keeper disk.new) }
        ensures usable { IfOk result (λ read. is_open self.new.keeper.shelf ≡ is_some read) }
        ensures stored { OnOk result ((told_on self.new.keeper.shelf).stored ≡ true) }
        ensures same_keeper { SameKeeper self.old.keeper self.new.keeper }
    {
        let Shelf::Open(store) = &mut self.keeper.shelf else {
            unreachable!();
        };
        let Some(next) = self.acts.checked_add(1) else {
            return Err(ActFault::NoMemory);
        };
        let end = store.end();
        match store.reply_body(alloc, disk, number) {
            Ok(frames) => {
                self.acts = next;
                Ok(Some(frames))
            }
            Err(BodyFault::Spent) => unreachable!(),
            Err(BodyFault::NoMemory) => Err(ActFault::NoMemory),
            Err(BodyFault::Damaged(at)) => Err(ActFault::Refused(OpenFault::Damaged(at))),
            Err(BodyFault::DiskFault) => match self.shut(end, next, outs) {
                Ok(()) => Ok(None),
                Err(NoMemory) => Err(ActFault::NoMemory),
            },
        }
    }

    /// Whether the file is open.
    pub fn is_open(&self) -> bool
        ensures { result ≡ is_open self.now.keeper.shelf }
    {
        match &self.keeper.shelf {
            Shelf::Absent => false,
            Shelf::Open(_store) => true,
            Shelf::Shut(_end) => false,
        }
    }

    /// The act has failed, and the store is shut; the next act has this number.
    pub(crate) fn shut(&mut self, end: u64, next: u32, outs: &mut Vec<Out>) -> Result<(), NoMemory>
        ensures keeper { OnOk result (self.new.keeper ≡ record self.old.keeper { shelf = shelves.Shut end }) }
        ensures acts { OnOk result (self.new.acts ≡ next) }
        ensures note { OnOk result (outs.new.items ≡ outs.old.items ++ out.Note (notes.Shut self.old.acts) ∷ []) }
        ensures same_keeper { SameKeeper self.old.keeper self.new.keeper }
    {
        outs.push(Out::Note(Note::Shut(self.acts)))?;
        self.keeper.shelf = Shelf::Shut(end);
        self.acts = next;
        Ok(())
    }
}
