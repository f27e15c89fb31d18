ghost use Rattle.std.specs.Prelude.{◌≡◌, OnOk, IfOk, IfErr, true};
ghost use Rattle.mj_machine.specs.MachineState.{State};
ghost use Rattle.mj_store.specs.Commands.{CanBeKept};
ghost use Rattle.mj_titanic.specs.Accepting.{Accepts, StopsAccepting, accept_of, is_kept};
ghost use Rattle.mj_keeper.specs.Standing.{IsOpenWith, IsSound, is_open, told_on};
ghost use Rattle.mj_titanic.specs.Onward.{SameKeeper};

use crate::acts::Keeping;
use crate::fault::ActFault;
use mj_base::{Frames, Name, NoMemory, Out};
use mj_disk::Disk;
use mj_keeper::Shelf;
use mj_store::AcceptFault;
use std::alloc::Global;

/// What became of a ticket that was to be kept.
#[derive(Clone, Copy)]
pub enum Accepted {
    /// There are as many open tickets as the limits allow, or the file would be longer than they allow.
    Full,
    /// It is open, with this number, and with an id whose text is this.
    Kept(u64, [u8; 36]),
    /// A call of the disk failed, and the store is shut.
    Failed,
}

impl Keeping {
    /// Keeps a ticket for this service with the next number, where there is room.
    pub fn accept<D: Disk>(
        &mut self,
        alloc: Global,
        disk: &mut D,
        service: &Name,
        body: &Frames,
        outs: &mut Vec<Out>,
    ) -> Result<Accepted, ActFault>
        requires body { CanBeKept body.now }
        requires open { is_open self.old.keeper.shelf ≡ true }
        requires sound { IsSound D.Disk self.old.keeper disk.old }
        ensures done { IfOk result (λ accepted. (core : State) → IsOpenWith (λ held. Accepts D.Disk core held (accept_of self.old.keeper held service.now body.now) self.old disk.old self.new disk.new outs.old.items outs.new.items accepted) self.old.keeper.shelf) }
        ensures stopped { IfErr result (λ fault. (core : State) → IsOpenWith (λ held. StopsAccepting D.Disk fault core held (accept_of self.old.keeper held service.now body.now) self.old disk.old disk.new) self.old.keeper.shelf) }
        ensures sound { OnOk result (IsSound D.Disk self.new.keeper disk.new) }
        ensures usable { IfOk result (λ accepted. is_open self.new.keeper.shelf ≡ is_kept accepted) }
        ensures stored { OnOk result ((told_on self.new.keeper.shelf).stored ≡ true) }
        ensures same_keeper { SameKeeper self.old.keeper self.new.keeper }
    {
        let Shelf::Open(store) = &mut self.keeper.shelf else {
            unreachable!();
        };
        let Some(next) = self.acts.checked_add(1) else {
            return Err(ActFault::NoMemory);
        };
        let end = store.end();
        let number = store.next();
        match store.accept(alloc, disk, &self.keeper.seed, service, body) {
            Ok(id) => {
                self.acts = next;
                Ok(Accepted::Kept(number, id.text()))
            }
            Err(AcceptFault::Spent) => unreachable!(),
            Err(AcceptFault::Full) => Ok(Accepted::Full),
            Err(AcceptFault::NoMemory) => Err(ActFault::NoMemory),
            Err(AcceptFault::DiskFault) => match self.shut(end, next, outs) {
                Ok(()) => Ok(Accepted::Failed),
                Err(NoMemory) => Err(ActFault::NoMemory),
            },
        }
    }
}
