ghost use Rattle.std.specs.Prelude.{◌≡◌, ◌+◌, ◌++◌, ◌∷◌, [], ◌≤◌, ◌<◌, ◌^◌, vec_len, vec_capacity, is_some, option_map, true, None, Some, IsOk, IfSome, OnOk, IfOk};
ghost use Rattle.std.specs.List.{list_any};
ghost use Rattle.mj_queue.specs.Offers.{offer_of};
ghost use Rattle.mj_queue.specs.Settling.{Pair, pair, without_ticket};
ghost use Rattle.mj_keeper.specs.Standing.{told_on};
ghost use Rattle.mj_machine.specs.Acts.{quiet};
ghost use Rattle.mj_machine.specs.Connections as machine;
ghost use Rattle.mj_machine.specs.Connections.{connection_of};
ghost use Rattle.mj_machine.specs.DiskActs.{clients_alone};
ghost use Rattle.mj_machine.specs.EventStep.{opened, reports};
ghost use Rattle.mj_machine.specs.Leaving;
ghost use Rattle.mj_machine.specs.Leaving.{becomes, connections_without, ends, goes, removed};
ghost use Rattle.mj_machine.specs.MachineState.{start_state};
ghost use Rattle.mj_machine.specs.MessageStep;
ghost use Rattle.mj_machine.specs.MessageStep.{queues, registration};
ghost use Rattle.mj_machine.specs.Pairing.{bodiless, hands, marks, waits};
ghost use Rattle.mj_machine.specs.Sending.{order_text, address, sends};
ghost use Rattle.mj_machine.specs.StoreState.{ticket_request, waiting_tickets};
ghost use Rattle.mj_machine.specs.TickStep.{at_moment, due_numbers, expires, is_unspoken, silent_numbers};
ghost use Rattle.mj_routing.specs.RoutingState.{Does, Gives, HandsOver};
ghost use Rattle.mj_routing.specs.Holding.{AreTicketsOf};
ghost use Rattle.mj_routing.specs.Places.{standing_of};
ghost use Rattle.mj_routing.specs.Returning.{BringsNothing, free_request, put_last};
ghost use Rattle.mj_machine.specs.declared.connection.Role;
ghost use Rattle.mj_worker_cmd.specs.declared.command.OrderAct.TheVariants as order;

use crate::connections::{Connections, Standing, Verdict};
use crate::hall::Hall;
use crate::leases::Leases;
use crate::services::is_titanic;
use crate::text::{address_of, order_octets, ticket_request};
use crate::{deadlines, held};
use indexmap::{IndexMap, IndexSet};
use mj_base::{Frames, Limits, Name, NoMemory, Octets, Out, Reason};
use mj_keeper::Keeper;
use mj_machine::{Registration, Role, Voice};
use mj_queue::{AskFault, Offer, Origin, Request};
use mj_store::Store;
use mj_worker_cmd::OrderAct;
use std::alloc::Global;
use std::marker::Model;

/// The broker but for the streams of its connections.
#[derive(Drop)]
pub struct Routing {
    limits: Limits,
    /// Milliseconds.
    moment: u64,
    /// The next connection's number.
    next: u64,
    connections: Connections,
    hall: Hall,
    /// By worker, in the order in which they were given.
    held: IndexMap<u64, Request>,
    leases: Leases,
}

impl Model for Routing {
    ghost use Rattle.mj_machine.specs.MachineState.{State};
    ghost use Rattle.mj_routing.specs.Holding.{held_in};
    ghost use Rattle.mj_routing.specs.RoutingState.{AreKept, seen};

    ghost Value = { State };

    ghost view = { λ c. seen c.limits c.moment c.next c.connections c.hall (held_in c.held) };

    ghost invariant = { λ c. AreKept c.limits c.moment c.next c.connections c.hall (held_in c.held) c.leases.leases };
}

impl Routing {
    /// Nobody is connected.
    pub fn new(alloc: Global, limits: &Limits) -> Routing
        ensures { result ≡ start_state limits.now }
    {
        Routing {
            limits: *limits,
            moment: 0,
            next: 1,
            connections: Connections::new(alloc),
            hall: Hall::new(alloc, limits),
            held: IndexMap::new(alloc),
            leases: Leases::new(alloc),
        }
    }

    /// Adds a fresh connection on this lane, where there is none.
    pub fn add(&mut self, alloc: Global, lane: u32) -> Result<u64, NoMemory>
        requires next { self.old.next < 2 ^ 63 }
        requires free { machine.number_on lane self.old.connections ≡ None }
        ensures state { OnOk result (self.new ≡ opened lane self.old) }
        ensures number { IfOk result (λ number. number ≡ self.old.next) }
    {
        let number = self.next;
        self.connections.add(alloc, lane, number)?;
        self.next += 1;
        Ok(number)
    }

    /// Takes a connection out, with all that waits or is queued for it. A ticket's request that it holds and that still
    /// pends goes to the queue's end.
    #[tactic(auto, using(crate::proofs::ReturningLemmas::returning))]
    pub fn remove(&mut self, number: u64, tickets: &Keeper) -> Result<(), NoMemory>
        ensures state { OnOk result (self.new ≡ removed number (told_on tickets.now.shelf) self.old) }
        ensures nothing { BringsNothing (told_on tickets.now.shelf) number self.old → IsOk result }
        ensures settled { BringsNothing (told_on tickets.now.shelf) number self.old → pair self.old.waiting self.old.queue ≡ None
            → OnOk result (pair self.new.waiting self.new.queue ≡ None) }
    {
        self.hall.drop_worker(number);
        self.hall.drop_client(number);
        let back = held::release(&mut self.held, number, tickets);
        self.connections.cut_off(number);
        deadlines::forget(&mut self.leases, number);
        self.queue_again(back)
    }

    /// Passes a connection over from now on. What becomes of the request that it holds is as at `remove`.
    #[tactic(auto, using(crate::proofs::ReturningLemmas::returning))]
    pub fn go(&mut self, number: u64, tickets: &Keeper) -> Result<(), NoMemory>
        ensures state { OnOk result (self.new ≡ goes number (told_on tickets.now.shelf) self.old) }
        ensures nothing { BringsNothing (told_on tickets.now.shelf) number self.old → IsOk result }
    {
        self.hall.drop_worker(number);
        self.hall.drop_client(number);
        let back = held::release(&mut self.held, number, tickets);
        self.connections.set_role(number, Role::Gone);
        deadlines::forget(&mut self.leases, number);
        self.queue_again(back)
    }

    /// Ends a worker's lease: it may register anew. What becomes of the request that it holds is as at `remove`.
    #[tactic(auto, using(crate::proofs::ReturningLemmas::returning))]
    pub fn expire(&mut self, number: u64, tickets: &Keeper) -> Result<(), NoMemory>
        ensures state { OnOk result (self.new ≡ expires number (told_on tickets.now.shelf) self.old) }
        ensures nothing { BringsNothing (told_on tickets.now.shelf) number self.old → IsOk result }
    {
        self.hall.drop_worker(number);
        self.hall.drop_client(number);
        let back = held::release(&mut self.held, number, tickets);
        self.connections.set_role(number, Role::Fresh);
        deadlines::forget(&mut self.leases, number);
        self.queue_again(back)
    }

    fn queue_again(&mut self, back: Option<Request>) -> Result<(), NoMemory>
        ensures state { OnOk result (self.new ≡ record self.old { queue = put_last back self.old.queue }) }
        ensures nothing { back ≡ None → IsOk result }
    {
        match back {
            None => Ok(()),
            Some(request) => self.hall.queue(request),
        }
    }

    /// The connection has asked.
    pub fn set_client(&mut self, number: u64)
        ensures { self.new ≡ becomes number Role.Client self.old }
    {
        self.connections.set_role(number, Role::Client);
        deadlines::forget(&mut self.leases, number);
    }

    /// The oldest piece on its way to the connection was sent.
    pub fn note_delivered(&mut self, number: u64)
        ensures { self.new ≡ reports (Some number) self.old }
    {
        self.connections.note_delivered(number);
    }

    /// The worker's lease begins anew.
    pub fn mark(&mut self, number: u64) -> Result<(), NoMemory>
        ensures { OnOk result (self.new ≡ marks number self.old) }
    {
        self.leases.reserve(1)?;
        self.connections.hear(number, self.moment);
        deadlines::renew(
            &mut self.leases,
            &self.limits,
            &self.connections,
            &self.held,
            number,
        );
        Ok(())
    }

    /// Puts the worker last among those that wait for this service.
    pub fn wait(&mut self, number: u64, service: &Name) -> Result<(), NoMemory>
        ensures { OnOk result (self.new ≡ waits number service.now self.old) }
    {
        self.leases.reserve(1)?;
        self.hall.wait(number, service)?;
        held::drop_held(&mut self.held, number);
        deadlines::renew(
            &mut self.leases,
            &self.limits,
            &self.connections,
            &self.held,
            number,
        );
        Ok(())
    }

    /// Ends the connection.
    pub fn end(
        &mut self,
        lane: u32,
        number: u64,
        reason: Reason,
        at: u64,
        tickets: &Keeper,
        outs: &mut Vec<Out>,
    ) -> Result<(), NoMemory>
        ensures { OnOk result (Does self.new outs.old.items outs.new.items (ends lane number reason at (told_on tickets.now.shelf) self.old)) }
    {
        self.remove(number, tickets)?;
        outs.push(Out::End(lane, reason, at))?;
        Ok(())
    }

    /// Sends a piece, or ends the connection of a peer that is too slow.
    pub fn send(
        &mut self,
        number: u64,
        piece: Octets,
        tickets: &Keeper,
        outs: &mut Vec<Out>,
    ) -> Result<(), NoMemory>
        ensures { OnOk result (Does self.new outs.old.items outs.new.items (sends number piece (told_on tickets.now.shelf) self.old)) }
    {
        let octets = piece.len() as u64;
        match self.connections.judge(&self.limits, number, octets) {
            Verdict::Nobody => Ok(()),
            Verdict::Slow(lane, waiting) => {
                self.end(lane, number, Reason::Slow, waiting, tickets, outs)
            }
            Verdict::Sends(lane) => {
                self.connections.note_sent(number, self.moment, octets)?;
                outs.push(Out::Piece(lane, piece))?;
                Ok(())
            }
        }
    }

    /// The lane and the role of the connection of this number.
    pub fn look_up(&self, number: u64) -> Option<Standing>
        ensures { result ≡ standing_of (connection_of number self.now.connections) }
    {
        self.connections.look_up(number)
    }

    /// The number of the connection that opens next.
    pub fn next_number(&self) -> u64
        ensures { result ≡ self.now.next }
    {
        self.next
    }

    /// Whether the connection of this number is there.
    pub fn has(&self, number: u64) -> bool
        ensures { result ≡ is_some (connection_of number self.now.connections) }
    {
        self.connections.has(number)
    }

    /// The same, at once where the connection stands at this place, of all from 0, in the order of their opening.
    pub fn has_near(&self, place: usize, number: u64) -> bool
        ensures { result ≡ is_some (connection_of number self.now.connections) }
    {
        self.connections.has_near(place, number)
    }

    /// The number of connections.
    pub fn count(&self) -> usize {
        self.connections.len()
    }

    /// The number of the connection on this lane, which is alone there.
    pub fn number_on(&self, lane: u32) -> Option<u64>
        ensures number { result ≡ machine.number_on lane self.now.connections }
        ensures alone { IfSome result (λ number. machine.number_on lane (connections_without number self.now.connections) ≡ None) }
    {
        self.connections.number_on(lane)
    }

    /// How the connection of this number is spoken to.
    pub fn voice_of(&self, number: u64) -> Voice
        ensures { result ≡ machine.voice_of (connection_of number self.now.connections) }
    {
        self.connections.voice_of(number)
    }

    /// Whether the connection of this number is there and has asked.
    pub fn is_asking(&self, number: u64) -> bool
        ensures { result ≡ machine.is_asking (connection_of number self.now.connections) }
    {
        self.connections.is_asking(number)
    }

    /// A copy of the request that this worker holds.
    pub fn held_by(&self, worker: u64) -> Result<Option<Request>, NoMemory>
        ensures { IfOk result (λ request. request ≡ Leaving.held_by worker self.now.held) }
    {
        held::held_by(&self.held, worker)
    }

    /// Whether somebody waits for the service of this name or holds a request for it, or it is one of the store's.
    pub fn is_known(&self, name: &Name, tickets: &Keeper) -> bool
        ensures { result ≡ MessageStep.is_known (told_on tickets.now.shelf) (Some name.now) self.now }
    {
        self.hall.has_worker(name) || (tickets.is_stored() && is_titanic(name))
    }

    /// Appends the workers whose lease has ended, by number.
    pub fn due(&self, due: &mut Vec<u64>) -> Result<(), NoMemory>
        ensures ok { OnOk result (due.new.items ≡ due.old.items ++ due_numbers self.now) }
        ensures none { due_numbers self.now ≡ [] → vec_len due.old ≤ vec_capacity due.old → IsOk result }
    {
        self.leases.due(self.moment, due)
    }

    /// Appends the workers to which nothing was sent for an interval, by number.
    pub fn silent(&self, silent: &mut Vec<u64>) -> Result<(), NoMemory>
        ensures { OnOk result (silent.new.items ≡ silent.old.items ++ silent_numbers self.now) }
    {
        self.connections.silent(&self.limits, self.moment, silent)
    }

    /// Whether there is such a worker.
    pub fn has_silent(&self) -> bool
        ensures { result ≡ list_any (λ c. is_unspoken self.now.limits self.now.now c.role) self.now.connections }
    {
        self.connections.has_silent(&self.limits, self.moment)
    }

    /// It is so many milliseconds since the start, or already more.
    pub fn set_moment(&mut self, ms: u64)
        requires { ms ≤ 1000000000000000 }
        ensures { self.new ≡ at_moment ms self.old }
    {
        self.moment = self.moment.max(ms);
    }

    /// Queues this client's request, or ends the connection where it is one too many.
    pub fn queue(
        &mut self,
        lane: u32,
        number: u64,
        request: Request,
        tickets: &Keeper,
        outs: &mut Vec<Out>,
    ) -> Result<(), NoMemory>
        ensures { OnOk result (Does self.new outs.old.items outs.new.items (queues lane number request (told_on tickets.now.shelf) self.old)) }
    {
        match self.hall.ask(request) {
            Ok(()) => {
                self.set_client(number);
                Ok(())
            }
            Err(AskFault::QueueFull(_request)) => {
                let queued = self.hall.queued();
                self.end(lane, number, Reason::QueueFull, queued, tickets, outs)
            }
            Err(AskFault::NoMemory(_request)) => Err(NoMemory),
        }
    }

    /// Queues the request of this ticket for this service.
    pub fn queue_ticket(
        &mut self,
        alloc: Global,
        number: u64,
        service: &Name,
    ) -> Result<(), NoMemory>
        ensures { OnOk result (self.new ≡ record self.old { queue = self.old.queue ++ ticket_request number service.now ∷ [] }) }
    {
        self.hall.queue(ticket_request(alloc, number, service))
    }

    /// Takes out what this ticket has queued.
    pub fn drop_ticket(&mut self, number: u64)
        ensures { self.new ≡ record self.old { queue = without_ticket number self.old.queue } }
    {
        self.hall.drop_ticket(number);
    }

    /// Takes out what tickets have queued.
    pub fn drop_tickets(&mut self)
        ensures { self.new ≡ clients_alone self.old }
    {
        self.hall.drop_tickets();
    }

    /// Queues the requests of all pending tickets that no worker holds, by number.
    pub fn queue_tickets(&mut self, alloc: Global, store: &Store) -> Result<(), NoMemory>
        ensures { OnOk result (self.new ≡ record self.old { queue = self.old.queue ++ waiting_tickets self.old.held store.now.index }) }
    {
        let held = held::tickets(&self.held, alloc)?;
        self.queue_others(alloc, store, &held)
    }

    /// Queues the requests of all pending tickets but those that workers hold, by number.
    fn queue_others(
        &mut self,
        alloc: Global,
        store: &Store,
        held: &IndexSet<u64>,
    ) -> Result<(), NoMemory>
        requires { AreTicketsOf self.old.held held.now }
        ensures { OnOk result (self.new ≡ record self.old { queue = self.old.queue ++ waiting_tickets self.old.held store.now.index }) }
    {
        let end = store.next();
        let mut after = 0;
        while after < end {
            let Some((number, service)) = store.pending(after) else {
                return Ok(());
            };
            self.queue_free(alloc, number, service, held)?;
            after = number;
        }
        Ok(())
    }

    /// Queues the request of this ticket, unless a worker holds it.
    fn queue_free(
        &mut self,
        alloc: Global,
        number: u64,
        service: &Name,
        held: &IndexSet<u64>,
    ) -> Result<(), NoMemory>
        requires { AreTicketsOf self.old.held held.now }
        ensures { OnOk result (self.new ≡ record self.old { queue = put_last (free_request self.old.held number service.now) self.old.queue }) }
    {
        if held.contains(&number) {
            return Ok(());
        }
        self.queue_ticket(alloc, number, service)
    }

    /// A worker with this registration, which waits.
    pub fn register(&mut self, number: u64, voice: Voice, service: &Name) -> Result<(), NoMemory>
        ensures { OnOk result (self.new ≡ waits number service.now (becomes number (Role.Worker (registration voice service.now self.old)) self.old)) }
    {
        self.leases.reserve(1)?;
        self.hall.wait(number, service)?;
        held::drop_held(&mut self.held, number);
        let role = Role::Worker(Registration {
            version: voice.version,
            lead: voice.lead,
            service: service.copy(),
            mark: self.moment,
            spoken: self.moment,
        });
        self.connections.set_role(number, role);
        deadlines::renew(
            &mut self.leases,
            &self.limits,
            &self.connections,
            &self.held,
            number,
        );
        Ok(())
    }

    /// Gives the oldest request that has a waiting worker to the one that has waited longest.
    fn hand_over(&mut self, alloc: Global) -> Result<Option<Handed>, NoMemory>
        ensures { IfOk result (λ handed. HandsOver self.old self.new handed) }
    {
        self.held.reserve(1)?;
        self.leases.reserve(1)?;
        let Some((worker, request)) = self.hall.take_pair() else {
            return Ok(None);
        };
        let voice = self.connections.voice_of(worker);
        let parted = part(alloc, request);
        let origin = parted.request.origin;
        held::give(&mut self.held, worker, parted.request);
        self.connections.hear(worker, self.moment);
        deadlines::renew(
            &mut self.leases,
            &self.limits,
            &self.connections,
            &self.held,
            worker,
        );
        Ok(Some(Handed {
            worker,
            voice,
            origin,
            body: parted.body,
        }))
    }

    /// Which queued request the next waiting worker would get, the one that was queued first of those that some worker
    /// waits for. None where there is none.
    pub fn offer(&self) -> Option<Offer>
        ensures { result ≡ option_map offer_of (pair self.now.waiting self.now.queue) }
    {
        self.hall.offer()
    }

    /// Sends the offered request to its worker, with the body that was queued.
    pub fn dispatch(
        &mut self,
        alloc: Global,
        tickets: &Keeper,
        outs: &mut Vec<Out>,
    ) -> Result<(), NoMemory>
        requires { is_some (pair self.old.waiting self.old.queue) ≡ true }
        ensures { OnOk result (Gives self.old (λ p. Does self.new outs.old.items outs.new.items (hands p.request.body p (told_on tickets.now.shelf) self.old))) }
    {
        let Some(handed) = self.hand_over(alloc)? else {
            unreachable!();
        };
        self.order(alloc, handed, tickets, outs)
    }

    /// Sends the offered request to its worker, with this body.
    pub fn hand(
        &mut self,
        alloc: Global,
        body: Frames,
        tickets: &Keeper,
        outs: &mut Vec<Out>,
    ) -> Result<(), NoMemory>
        requires { is_some (pair self.old.waiting self.old.queue) ≡ true }
        ensures { OnOk result (Gives self.old (λ p. Does self.new outs.old.items outs.new.items (hands body p (told_on tickets.now.shelf) self.old))) }
    {
        let Some(mut handed) = self.hand_over(alloc)? else {
            unreachable!();
        };
        handed.body = body;
        self.order(alloc, handed, tickets, outs)
    }

    fn order(
        &mut self,
        alloc: Global,
        handed: Handed,
        tickets: &Keeper,
        outs: &mut Vec<Out>,
    ) -> Result<(), NoMemory>
        ensures { OnOk result (Does self.new outs.old.items outs.new.items (sends handed.worker (order_text handed.voice (order.Request (address handed.origin) handed.body)) (told_on tickets.now.shelf) self.old)) }
    {
        let mut address = Octets::new(alloc);
        address.push_all(address_of(handed.origin).as_slice())?;
        let act = OrderAct::Request {
            address,
            body: handed.body,
        };
        let order = order_octets(alloc, handed.voice, act)?;
        self.send(handed.worker, order, tickets, outs)
    }
}

/// A request that was given to a worker.
#[derive(Drop)]
struct Handed {
    worker: u64,
    voice: Voice,
    origin: Origin,
    body: Frames,
}

/// A request without its body, and the body.
#[derive(Drop)]
struct Parted {
    request: Request,
    body: Frames,
}

fn part(alloc: Global, request: Request) -> Parted
    ensures request { result.request ≡ bodiless request }
    ensures body { result.body ≡ request.body }
{
    Parted {
        request: Request {
            origin: request.origin,
            service: request.service,
            version: request.version,
            lead: request.lead,
            body: Frames::new(alloc),
        },
        body: request.body,
    }
}
