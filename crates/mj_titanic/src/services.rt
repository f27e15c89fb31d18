//! The services of Titanic (ZeroMQ RFC 9).
ghost use Rattle.std.specs.Prelude.{◌≡◌, ◌≢◌, true, None, [], ◌∷◌, OnOk, IfOk, IfErr, codes};
ghost use Rattle.mj_machine.specs.DiskActs.{routes};
ghost use Rattle.mj_machine.specs.TitanicStep.{accepts, answers, closed, fetches, finishes, serves, submits, titanic_of};
ghost use Rattle.mj_mmi.specs.Asking;
ghost use Rattle.mj_store.specs.Bodies.{reply_at};
ghost use Rattle.mj_store.specs.Commands.{CanBeKept};
ghost use Rattle.mj_tickets.specs.Fold.{ticket_of};
ghost use Rattle.mj_keeper.specs.Standing.{IsOpenWith, IsSound, is_open, told_on};
ghost use Rattle.mj_titanic.specs.Acting.{Did, Stopped, around, nowhere, seen};
ghost use Rattle.mj_titanic.specs.Services.{accepted_as, closes_known, closing, shows_known, showing};
ghost use Rattle.mj_titanic.specs.Onward.{OpenOnward, Onward, SameKeeper};

use crate::accepting::Accepted;
use crate::fault::ActFault;
use crate::parts::Parts;
use mj_base::{Frames, Name, NoMemory, Out};
use mj_disk::Disk;
use mj_ids::TicketId;
use mj_keeper::Shelf;
use mj_mmi::{read_submit, read_ticket};
use mj_queue::Request;
use mj_tickets::TicketState;
use std::alloc::Global;

const SUBMIT: &[u8] = b"titanic.request";

const FETCH: &[u8] = b"titanic.reply";

const FINISH: &[u8] = b"titanic.close";

impl Parts {
    /// Serves this request of a connection, which names one of the services.
    pub fn serve<D: Disk>(
        &mut self,
        alloc: Global,
        disk: &mut D,
        number: u64,
        request: &Request,
        outs: &mut Vec<Out>,
    ) -> Result<(), ActFault>
        requires body { CanBeKept request.now.body }
        requires stored { (told_on self.old.keeping.keeper.shelf).stored ≡ true }
        requires sound { IsSound D.Disk self.old.keeping.keeper disk.old }
        ensures done { OnOk result (Did D.Disk (seen self.old) disk.old (seen self.new) disk.new outs.old.items outs.new.items (serves (titanic_of request.now.service) number request.now) (around (serves (titanic_of request.now.service) number request.now))) }
        ensures stopped { IfErr result (λ fault. Stopped D.Disk fault (seen self.old) disk.old disk.new (around (serves (titanic_of request.now.service) number request.now))) }
        ensures sound { OnOk result (IsSound D.Disk self.new.keeping.keeper disk.new) }
        ensures stays { OnOk result (Onward self.old self.new) }
        ensures keeper { SameKeeper self.old.keeping.keeper self.new.keeping.keeper }
    {
        let name = request.service.as_slice();
        if name == SUBMIT {
            return self.submit(alloc, disk, number, request, outs);
        }
        if name == FETCH {
            return self.fetch(alloc, disk, number, request, outs);
        }
        if name == FINISH {
            return self.finish(alloc, disk, number, request, outs);
        }
        self.tell(alloc, disk, number, request, b"501", outs)
    }

    /// `titanic.close`: the ticket with this id isn't needed any more.
    pub fn finish<D: Disk>(
        &mut self,
        alloc: Global,
        disk: &mut D,
        number: u64,
        request: &Request,
        outs: &mut Vec<Out>,
    ) -> Result<(), ActFault>
        requires stored { (told_on self.old.keeping.keeper.shelf).stored ≡ true }
        requires sound { IsSound D.Disk self.old.keeping.keeper disk.old }
        ensures done { OnOk result (Did D.Disk (seen self.old) disk.old (seen self.new) disk.new outs.old.items outs.new.items (finishes number request.now (Asking.read_ticket request.now.body)) (around (finishes number request.now (Asking.read_ticket request.now.body)))) }
        ensures stopped { IfErr result (λ fault. Stopped D.Disk fault (seen self.old) disk.old disk.new (around (finishes number request.now (Asking.read_ticket request.now.body)))) }
        ensures sound { OnOk result (IsSound D.Disk self.new.keeping.keeper disk.new) }
        ensures stays { OnOk result (Onward self.old self.new) }
        ensures keeper { SameKeeper self.old.keeping.keeper self.new.keeping.keeper }
    {
        let id = match read_ticket(&request.body) {
            Some(id) => id,
            None => return self.tell(alloc, disk, number, request, b"400", outs),
        };
        match self.open_again(alloc, disk, outs) {
            Ok(true) => self.close_known(alloc, disk, number, request, &id, outs),
            Ok(false) => self.tell(alloc, disk, number, request, b"500", outs),
            Err(fault) => Err(fault),
        }
    }

    fn close_known<D: Disk>(
        &mut self,
        alloc: Global,
        disk: &mut D,
        number: u64,
        request: &Request,
        id: &TicketId,
        outs: &mut Vec<Out>,
    ) -> Result<(), ActFault>
        requires open { is_open self.old.keeping.keeper.shelf ≡ true }
        requires sound { IsSound D.Disk self.old.keeping.keeper disk.old }
        ensures done { OnOk result (Did D.Disk (seen self.old) disk.old (seen self.new) disk.new outs.old.items outs.new.items (closes_known number request.now id.now) (around (closes_known number request.now id.now))) }
        ensures stopped { IfErr result (λ fault. Stopped D.Disk fault (seen self.old) disk.old disk.new (around (closes_known number request.now id.now))) }
        ensures sound { OnOk result (IsSound D.Disk self.new.keeping.keeper disk.new) }
        ensures stays { OnOk result (Onward self.old self.new) }
        ensures keeper { SameKeeper self.old.keeping.keeper self.new.keeping.keeper }
    {
        let Shelf::Open(store) = &self.keeping.keeper.shelf else {
            unreachable!();
        };
        match store.look(id) {
            TicketState::Unknown => self.tell(alloc, disk, number, request, b"200", outs),
            TicketState::Pending => self.close(alloc, disk, number, request, id.number(), outs),
            TicketState::Stored => self.close(alloc, disk, number, request, id.number(), outs),
        }
    }

    /// Closes the open ticket of this number, and drops what it has queued.
    fn close<D: Disk>(
        &mut self,
        alloc: Global,
        disk: &mut D,
        number: u64,
        request: &Request,
        ticket: u64,
        outs: &mut Vec<Out>,
    ) -> Result<(), ActFault>
        requires open { IsOpenWith (λ held. ticket_of ticket held.index ≢ None) self.old.keeping.keeper.shelf }
        requires sound { IsSound D.Disk self.old.keeping.keeper disk.old }
        ensures done { OnOk result (Did D.Disk (seen self.old) disk.old (seen self.new) disk.new outs.old.items outs.new.items (closing number request.now ticket) (around (closing number request.now ticket))) }
        ensures stopped { IfErr result (λ fault. Stopped D.Disk fault (seen self.old) disk.old disk.new (around (closing number request.now ticket))) }
        ensures sound { OnOk result (IsSound D.Disk self.new.keeping.keeper disk.new) }
        ensures stays { OnOk result (Onward self.old self.new) }
        ensures keeper { SameKeeper self.old.keeping.keeper self.new.keeping.keeper }
    {
        match self.keeping.close_ticket(alloc, disk, ticket, outs) {
            Ok(true) => self.tell_closed(alloc, disk, number, request, ticket, outs),
            Ok(false) => self.fail(alloc, disk, number, request, outs),
            Err(fault) => Err(fault),
        }
    }

    fn tell_closed<D: Disk>(
        &mut self,
        alloc: Global,
        disk: &D,
        number: u64,
        request: &Request,
        ticket: u64,
        outs: &mut Vec<Out>,
    ) -> Result<(), ActFault>
        requires sound { IsSound D.Disk self.old.keeping.keeper disk.now }
        ensures done { OnOk result (Did D.Disk (seen self.old) disk.now (seen self.new) disk.now outs.old.items outs.new.items (routes (closed number request.now ticket)) nowhere) }
        ensures stopped { IfErr result (λ fault. Stopped D.Disk fault (seen self.old) disk.now disk.now nowhere) }
        ensures sound { OnOk result (IsSound D.Disk self.new.keeping.keeper disk.now) }
        ensures stays { OnOk result (OpenOnward self.old self.new) }
        ensures keeper { SameKeeper self.old.keeping.keeper self.new.keeping.keeper }
    {
        self.routing.drop_ticket(ticket);
        match self.send_code(alloc, number, request, b"200", outs) {
            Ok(()) => Ok(()),
            Err(NoMemory) => Err(ActFault::NoMemory),
        }
    }

    /// `titanic.request`: a request is kept, and its ticket's id is told.
    pub fn submit<D: Disk>(
        &mut self,
        alloc: Global,
        disk: &mut D,
        number: u64,
        request: &Request,
        outs: &mut Vec<Out>,
    ) -> Result<(), ActFault>
        requires body { CanBeKept request.now.body }
        requires stored { (told_on self.old.keeping.keeper.shelf).stored ≡ true }
        requires sound { IsSound D.Disk self.old.keeping.keeper disk.old }
        ensures done { OnOk result (Did D.Disk (seen self.old) disk.old (seen self.new) disk.new outs.old.items outs.new.items (submits number request.now (Asking.read_submit request.now.body)) (around (submits number request.now (Asking.read_submit request.now.body)))) }
        ensures stopped { IfErr result (λ fault. Stopped D.Disk fault (seen self.old) disk.old disk.new (around (submits number request.now (Asking.read_submit request.now.body)))) }
        ensures sound { OnOk result (IsSound D.Disk self.new.keeping.keeper disk.new) }
        ensures stays { OnOk result (Onward self.old self.new) }
        ensures keeper { SameKeeper self.old.keeping.keeper self.new.keeping.keeper }
    {
        let (service, body) = match read_submit(alloc, &request.body) {
            Ok(Some(submitted)) => submitted,
            Ok(None) => return self.tell(alloc, disk, number, request, b"400", outs),
            Err(NoMemory) => return Err(ActFault::NoMemory),
        };
        match self.open_again(alloc, disk, outs) {
            Ok(true) => self.accept(alloc, disk, number, request, &service, &body, outs),
            Ok(false) => self.tell(alloc, disk, number, request, b"500", outs),
            Err(fault) => Err(fault),
        }
    }

    /// Keeps a ticket for this service where there is room, and tells its id.
    fn accept<D: Disk>(
        &mut self,
        alloc: Global,
        disk: &mut D,
        number: u64,
        request: &Request,
        service: &Name,
        body: &Frames,
        outs: &mut Vec<Out>,
    ) -> Result<(), ActFault>
        requires body { CanBeKept body.now }
        requires open { is_open self.old.keeping.keeper.shelf ≡ true }
        requires sound { IsSound D.Disk self.old.keeping.keeper disk.old }
        ensures done { OnOk result (Did D.Disk (seen self.old) disk.old (seen self.new) disk.new outs.old.items outs.new.items (accepts number request.now (service.now, body.now)) (around (accepts number request.now (service.now, body.now)))) }
        ensures stopped { IfErr result (λ fault. Stopped D.Disk fault (seen self.old) disk.old disk.new (around (accepts number request.now (service.now, body.now)))) }
        ensures sound { OnOk result (IsSound D.Disk self.new.keeping.keeper disk.new) }
        ensures stays { OnOk result (Onward self.old self.new) }
        ensures keeper { SameKeeper self.old.keeping.keeper self.new.keeping.keeper }
    {
        match self.keeping.accept(alloc, disk, service, body, outs) {
            Ok(Accepted::Full) => self.tell(alloc, disk, number, request, b"500", outs),
            Ok(Accepted::Kept(ticket, text)) => {
                self.tell_accepted(alloc, disk, number, request, ticket, &text, service, outs)
            }
            Ok(Accepted::Failed) => self.fail(alloc, disk, number, request, outs),
            Err(fault) => Err(fault),
        }
    }

    fn tell_accepted<D: Disk>(
        &mut self,
        alloc: Global,
        disk: &D,
        number: u64,
        request: &Request,
        ticket: u64,
        text: &[u8; 36],
        service: &Name,
        outs: &mut Vec<Out>,
    ) -> Result<(), ActFault>
        requires sound { IsSound D.Disk self.old.keeping.keeper disk.now }
        ensures done { OnOk result (Did D.Disk (seen self.old) disk.now (seen self.new) disk.now outs.old.items outs.new.items (routes (accepted_as ticket text.now service.now number request.now)) nowhere) }
        ensures stopped { IfErr result (λ fault. Stopped D.Disk fault (seen self.old) disk.now disk.now nowhere) }
        ensures sound { OnOk result (IsSound D.Disk self.new.keeping.keeper disk.now) }
        ensures stays { OnOk result (OpenOnward self.old self.new) }
        ensures keeper { SameKeeper self.old.keeping.keeper self.new.keeping.keeper }
    {
        let Ok(()) = self.routing.queue_ticket(alloc, ticket, service) else {
            return Err(ActFault::NoMemory);
        };
        let Ok(body) = id_frames(alloc, text) else {
            return Err(ActFault::NoMemory);
        };
        match self.send_reply(alloc, number, request, body, outs) {
            Ok(()) => Ok(()),
            Err(NoMemory) => Err(ActFault::NoMemory),
        }
    }

    /// `titanic.reply`: the reply of the ticket with this id is asked for.
    pub fn fetch<D: Disk>(
        &mut self,
        alloc: Global,
        disk: &mut D,
        number: u64,
        request: &Request,
        outs: &mut Vec<Out>,
    ) -> Result<(), ActFault>
        requires stored { (told_on self.old.keeping.keeper.shelf).stored ≡ true }
        requires sound { IsSound D.Disk self.old.keeping.keeper disk.old }
        ensures done { OnOk result (Did D.Disk (seen self.old) disk.old (seen self.new) disk.new outs.old.items outs.new.items (fetches number request.now (Asking.read_ticket request.now.body)) (around (fetches number request.now (Asking.read_ticket request.now.body)))) }
        ensures stopped { IfErr result (λ fault. Stopped D.Disk fault (seen self.old) disk.old disk.new (around (fetches number request.now (Asking.read_ticket request.now.body)))) }
        ensures sound { OnOk result (IsSound D.Disk self.new.keeping.keeper disk.new) }
        ensures stays { OnOk result (Onward self.old self.new) }
        ensures keeper { SameKeeper self.old.keeping.keeper self.new.keeping.keeper }
    {
        let id = match read_ticket(&request.body) {
            Some(id) => id,
            None => return self.tell(alloc, disk, number, request, b"400", outs),
        };
        match self.open_again(alloc, disk, outs) {
            Ok(true) => self.show_known(alloc, disk, number, request, &id, outs),
            Ok(false) => self.tell(alloc, disk, number, request, b"500", outs),
            Err(fault) => Err(fault),
        }
    }

    fn show_known<D: Disk>(
        &mut self,
        alloc: Global,
        disk: &mut D,
        number: u64,
        request: &Request,
        id: &TicketId,
        outs: &mut Vec<Out>,
    ) -> Result<(), ActFault>
        requires open { is_open self.old.keeping.keeper.shelf ≡ true }
        requires sound { IsSound D.Disk self.old.keeping.keeper disk.old }
        ensures done { OnOk result (Did D.Disk (seen self.old) disk.old (seen self.new) disk.new outs.old.items outs.new.items (shows_known number request.now id.now) (around (shows_known number request.now id.now))) }
        ensures stopped { IfErr result (λ fault. Stopped D.Disk fault (seen self.old) disk.old disk.new (around (shows_known number request.now id.now))) }
        ensures sound { OnOk result (IsSound D.Disk self.new.keeping.keeper disk.new) }
        ensures stays { OnOk result (Onward self.old self.new) }
        ensures keeper { SameKeeper self.old.keeping.keeper self.new.keeping.keeper }
    {
        let Shelf::Open(store) = &self.keeping.keeper.shelf else {
            unreachable!();
        };
        match store.look(id) {
            TicketState::Unknown => self.tell(alloc, disk, number, request, b"400", outs),
            TicketState::Pending => self.tell(alloc, disk, number, request, b"300", outs),
            TicketState::Stored => self.show(alloc, disk, number, request, id.number(), outs),
        }
    }

    /// Tells the stored reply of the ticket of this number.
    fn show<D: Disk>(
        &mut self,
        alloc: Global,
        disk: &mut D,
        number: u64,
        request: &Request,
        ticket: u64,
        outs: &mut Vec<Out>,
    ) -> Result<(), ActFault>
        requires open { IsOpenWith (λ held. reply_at ticket held.index ≢ None) self.old.keeping.keeper.shelf }
        requires sound { IsSound D.Disk self.old.keeping.keeper disk.old }
        ensures done { OnOk result (Did D.Disk (seen self.old) disk.old (seen self.new) disk.new outs.old.items outs.new.items (showing number request.now ticket) (around (showing number request.now ticket))) }
        ensures stopped { IfErr result (λ fault. Stopped D.Disk fault (seen self.old) disk.old disk.new (around (showing number request.now ticket))) }
        ensures sound { OnOk result (IsSound D.Disk self.new.keeping.keeper disk.new) }
        ensures stays { OnOk result (Onward self.old self.new) }
        ensures keeper { SameKeeper self.old.keeping.keeper self.new.keeping.keeper }
    {
        match self.keeping.read_reply(alloc, disk, ticket, outs) {
            Ok(Some(reply)) => self.tell_reply(alloc, disk, number, request, &reply, outs),
            Ok(None) => self.fail(alloc, disk, number, request, outs),
            Err(fault) => Err(fault),
        }
    }

    fn tell_reply<D: Disk>(
        &mut self,
        alloc: Global,
        disk: &D,
        number: u64,
        request: &Request,
        reply: &Frames,
        outs: &mut Vec<Out>,
    ) -> Result<(), ActFault>
        requires sound { IsSound D.Disk self.old.keeping.keeper disk.now }
        ensures done { OnOk result (Did D.Disk (seen self.old) disk.now (seen self.new) disk.now outs.old.items outs.new.items (routes (answers number request.now (codes "200" ∷ reply.now))) nowhere) }
        ensures stopped { IfErr result (λ fault. Stopped D.Disk fault (seen self.old) disk.now disk.now nowhere) }
        ensures sound { OnOk result (IsSound D.Disk self.new.keeping.keeper disk.now) }
        ensures stays { OnOk result (OpenOnward self.old self.new) }
        ensures keeper { SameKeeper self.old.keeping.keeper self.new.keeping.keeper }
    {
        let Ok(body) = reply_frames(alloc, reply) else {
            return Err(ActFault::NoMemory);
        };
        match self.send_reply(alloc, number, request, body, outs) {
            Ok(()) => Ok(()),
            Err(NoMemory) => Err(ActFault::NoMemory),
        }
    }
}

fn id_frames(alloc: Global, text: &[u8; 36]) -> Result<Frames, NoMemory>
    ensures { IfOk result (λ frames. frames ≡ codes "200" ∷ text.now ∷ []) }
{
    let mut frames = Frames::new(alloc);
    frames.push(b"200")?;
    frames.push(text.as_slice())?;
    Ok(frames)
}

fn reply_frames(alloc: Global, reply: &Frames) -> Result<Frames, NoMemory>
    ensures { IfOk result (λ frames. frames ≡ codes "200" ∷ reply.now) }
{
    let mut frames = Frames::new(alloc);
    frames.push(b"200")?;
    frames.append_from(reply, 0)?;
    Ok(frames)
}
