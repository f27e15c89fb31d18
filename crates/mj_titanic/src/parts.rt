ghost use Rattle.std.specs.Prelude.{◌≡◌, true, [], ◌∷◌, OnOk, IfOk, IfErr, codes};
ghost use Rattle.mj_machine.specs.Acts.{quiet};
ghost use Rattle.mj_machine.specs.DiskActs.{clients_alone, opening, routes};
ghost use Rattle.mj_machine.specs.TitanicStep.{answers, fails_to, tells};
ghost use Rattle.mj_routing.specs.RoutingState.{Does};
ghost use Rattle.mj_keeper.specs.Standing.{IsSound, is_open, told_on};
ghost use Rattle.mj_titanic.specs.Acting.{Did, Stopped, around, nowhere, parts, seen};
ghost use Rattle.mj_titanic.specs.Reopening.{core_opened};
ghost use Rattle.mj_titanic.specs.Onward.{FromAny, Onward, SameKeeper};

use crate::acts::Keeping;
use crate::fault::ActFault;
use mj_base::{Frames, NoMemory, Out};
use mj_disk::Disk;
use mj_keeper::Shelf;
use mj_queue::Request;
use mj_routing::{Routing, reply_octets};
use std::alloc::Global;

/// What is routed and what keeps tickets, inside an event.
#[derive(Drop)]
pub struct Parts {
    pub routing: Routing,
    pub keeping: Keeping,
}

impl Parts {
    /// Opens the store again where it is shut, and queues the tickets that wait. False where a call of the disk failed:
    /// the store stays shut then.
    pub(crate) fn open_again<D: Disk>(
        &mut self,
        alloc: Global,
        disk: &mut D,
        outs: &mut Vec<Out>,
    ) -> Result<bool, ActFault>
        requires stored { (told_on self.old.keeping.keeper.shelf).stored ≡ true }
        requires sound { IsSound D.Disk self.old.keeping.keeper disk.old }
        ensures done { OnOk result (Did D.Disk (seen self.old) disk.old (seen self.new) disk.new outs.old.items outs.new.items (opening quiet quiet) (around (opening quiet quiet))) }
        ensures stopped { IfErr result (λ fault. Stopped D.Disk fault (seen self.old) disk.old disk.new (around (opening quiet quiet))) }
        ensures sound { OnOk result (IsSound D.Disk self.new.keeping.keeper disk.new) }
        ensures usable { IfOk result (λ opened. is_open self.new.keeping.keeper.shelf ≡ opened) }
        ensures still_stored { OnOk result ((told_on self.new.keeping.keeper.shelf).stored ≡ true) }
        ensures stays { OnOk result (Onward self.old self.new) }
        ensures keeper { SameKeeper self.old.keeping.keeper self.new.keeping.keeper }
    {
        if self.keeping.is_open() {
            return Ok(true);
        }
        let opened = match self.keeping.open_again(alloc, disk, outs) {
            Ok(opened) => opened,
            Err(fault) => return Err(fault),
        };
        match self.route_again(alloc) {
            Ok(()) => Ok(opened),
            Err(NoMemory) => Err(ActFault::NoMemory),
        }
    }

    /// Queues the tickets that wait, or takes out what tickets have queued, by what became of the store.
    fn route_again(&mut self, alloc: Global) -> Result<(), NoMemory>
        ensures keeping { OnOk result (self.new.keeping ≡ self.old.keeping) }
        ensures routing { OnOk result (self.new.routing ≡ core_opened self.old.keeping.keeper.shelf self.old.routing) }
        ensures keeper { SameKeeper self.old.keeping.keeper self.new.keeping.keeper }
    {
        match &self.keeping.keeper.shelf {
            Shelf::Absent => Ok(()),
            Shelf::Open(store) => self.routing.queue_tickets(alloc, store),
            Shelf::Shut(_end) => {
                self.routing.drop_tickets();
                Ok(())
            }
        }
    }

    /// Sends these frames as the last reply to the request of this connection.
    pub(crate) fn send_reply(
        &mut self,
        alloc: Global,
        number: u64,
        request: &Request,
        body: Frames,
        outs: &mut Vec<Out>,
    ) -> Result<(), NoMemory>
        ensures keeping { OnOk result (self.new.keeping ≡ self.old.keeping) }
        ensures routing { OnOk result (Does self.new.routing outs.old.items outs.new.items (answers number request.now body (told_on self.old.keeping.keeper.shelf) self.old.routing)) }
        ensures stays { OnOk result (Onward self.old self.new) }
        ensures keeper { SameKeeper self.old.keeping.keeper self.new.keeping.keeper }
    {
        let piece = reply_octets(alloc, true, request, body)?;
        self.routing.send(number, piece, &self.keeping.keeper, outs)
    }

    /// Sends this code as the only frame of the last reply.
    pub(crate) fn send_code(
        &mut self,
        alloc: Global,
        number: u64,
        request: &Request,
        code: &[u8],
        outs: &mut Vec<Out>,
    ) -> Result<(), NoMemory>
        ensures keeping { OnOk result (self.new.keeping ≡ self.old.keeping) }
        ensures routing { OnOk result (Does self.new.routing outs.old.items outs.new.items (answers number request.now (code.now ∷ []) (told_on self.old.keeping.keeper.shelf) self.old.routing)) }
        ensures stays { OnOk result (Onward self.old self.new) }
        ensures keeper { SameKeeper self.old.keeping.keeper self.new.keeping.keeper }
    {
        let mut body = Frames::new(alloc);
        body.push(code)?;
        self.send_reply(alloc, number, request, body, outs)
    }

    /// The same, as an act.
    pub(crate) fn tell<D: Disk>(
        &mut self,
        alloc: Global,
        disk: &D,
        number: u64,
        request: &Request,
        code: &[u8],
        outs: &mut Vec<Out>,
    ) -> Result<(), ActFault>
        requires sound { IsSound D.Disk self.old.keeping.keeper disk.now }
        ensures done { OnOk result (Did D.Disk (seen self.old) disk.now (seen self.new) disk.now outs.old.items outs.new.items (tells number request.now code.now) nowhere) }
        ensures stopped { IfErr result (λ fault. Stopped D.Disk fault (seen self.old) disk.now disk.now nowhere) }
        ensures sound { OnOk result (IsSound D.Disk self.new.keeping.keeper disk.now) }
        ensures stays { OnOk result (Onward self.old self.new) }
        ensures keeper { SameKeeper self.old.keeping.keeper self.new.keeping.keeper }
    {
        match self.send_code(alloc, number, request, code, outs) {
            Ok(()) => Ok(()),
            Err(NoMemory) => Err(ActFault::NoMemory),
        }
    }

    /// An act has failed for this request: no ticket stays queued, and `500` is told.
    pub(crate) fn fail<D: Disk>(
        &mut self,
        alloc: Global,
        disk: &D,
        number: u64,
        request: &Request,
        outs: &mut Vec<Out>,
    ) -> Result<(), ActFault>
        requires sound { IsSound D.Disk self.old.keeping.keeper disk.now }
        ensures done { OnOk result (Did D.Disk (parts (clients_alone self.old.routing) self.old.keeping) disk.now (seen self.new) disk.now outs.old.items outs.new.items (fails_to number request.now) nowhere) }
        ensures stopped { IfErr result (λ fault. Stopped D.Disk fault (parts (clients_alone self.old.routing) self.old.keeping) disk.now disk.now nowhere) }
        ensures sound { OnOk result (IsSound D.Disk self.new.keeping.keeper disk.now) }
        ensures stays { OnOk result (FromAny self.old self.new) }
        ensures keeper { SameKeeper self.old.keeping.keeper self.new.keeping.keeper }
    {
        self.routing.drop_tickets();
        match self.send_code(alloc, number, request, b"500", outs) {
            Ok(()) => Ok(()),
            Err(NoMemory) => Err(ActFault::NoMemory),
        }
    }
}
