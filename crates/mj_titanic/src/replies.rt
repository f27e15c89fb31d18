//! Replies of workers to tickets.
ghost use Rattle.std.specs.Prelude.{◌≡◌, true, OnOk, IfErr};
ghost use Rattle.mj_machine.specs.TitanicStep.{stores};
ghost use Rattle.mj_store.specs.Commands.{CanBeKept};
ghost use Rattle.mj_keeper.specs.Standing.{IsSound, is_open, told_on};
ghost use Rattle.mj_titanic.specs.Acting.{Did, Stopped, around, seen};
ghost use Rattle.mj_titanic.specs.Services.{stores_now};
ghost use Rattle.mj_titanic.specs.Onward.{Onward, SameKeeper};

use crate::fault::ActFault;
use crate::parts::Parts;
use mj_base::{Frames, Out};
use mj_disk::Disk;
use mj_keeper::Shelf;
use std::alloc::Global;

impl Parts {
    /// Stores a worker's final reply to this ticket, where the ticket is pending; where an act fails the reply is
    /// dropped.
    pub fn keep_reply<D: Disk>(
        &mut self,
        alloc: Global,
        disk: &mut D,
        ticket: u64,
        body: &Frames,
        outs: &mut Vec<Out>,
    ) -> Result<(), ActFault>
        requires body { CanBeKept body.now }
        requires stored { (told_on self.old.keeping.keeper.shelf).stored ≡ true }
        requires sound { IsSound D.Disk self.old.keeping.keeper disk.old }
        ensures done { OnOk result (Did D.Disk (seen self.old) disk.old (seen self.new) disk.new outs.old.items outs.new.items (stores ticket body.now) (around (stores ticket body.now))) }
        ensures stopped { IfErr result (λ fault. Stopped D.Disk fault (seen self.old) disk.old disk.new (around (stores ticket body.now))) }
        ensures sound { OnOk result (IsSound D.Disk self.new.keeping.keeper disk.new) }
        ensures stays { OnOk result (Onward self.old self.new) }
        ensures keeper { SameKeeper self.old.keeping.keeper self.new.keeping.keeper }
    {
        match self.open_again(alloc, disk, outs) {
            Ok(true) => self.store_now(alloc, disk, ticket, body, outs),
            Ok(false) => Ok(()),
            Err(fault) => Err(fault),
        }
    }

    fn store_now<D: Disk>(
        &mut self,
        alloc: Global,
        disk: &mut D,
        ticket: u64,
        body: &Frames,
        outs: &mut Vec<Out>,
    ) -> Result<(), ActFault>
        requires body { CanBeKept body.now }
        requires open { is_open self.old.keeping.keeper.shelf ≡ true }
        requires sound { IsSound D.Disk self.old.keeping.keeper disk.old }
        ensures done { OnOk result (Did D.Disk (seen self.old) disk.old (seen self.new) disk.new outs.old.items outs.new.items (stores_now ticket body.now) (around (stores_now ticket body.now))) }
        ensures stopped { IfErr result (λ fault. Stopped D.Disk fault (seen self.old) disk.old disk.new (around (stores_now ticket body.now))) }
        ensures sound { OnOk result (IsSound D.Disk self.new.keeping.keeper disk.new) }
        ensures stays { OnOk result (Onward self.old self.new) }
        ensures keeper { SameKeeper self.old.keeping.keeper self.new.keeping.keeper }
    {
        let Shelf::Open(store) = &self.keeping.keeper.shelf else {
            unreachable!();
        };
        if !store.is_pending(ticket) {
            return Ok(());
        }
        match self.keeping.store_reply(alloc, disk, ticket, body, outs) {
            Ok(true) => Ok(()),
            Ok(false) => {
                self.routing.drop_tickets();
                Ok(())
            }
            Err(fault) => Err(fault),
        }
    }
}
