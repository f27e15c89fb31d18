ghost use Rattle.std.specs.Prelude.{◌≡◌, ◌+◌, ◌-◌, ◌*◌, ◌≤◌, ◌<◌, ◌^◌, ◌++◌, ◌∷◌, ◌||◌, [], is_some, option_map, filter, length, IfErr, OnOk, OnErr, true, false, if◌then◌else◌};
ghost use Rattle.mj_queue.specs.HallSteps.{Asked, Takes, waits};
ghost use Rattle.mj_queue.specs.Offers.{offer_of};
ghost use Rattle.mj_queue.specs.Settling;
ghost use Rattle.mj_queue.specs.Settling.{is_served, pair, queued, without_client, without_ticket, without_worker};
ghost use Rattle.std.specs.List.{list_any};
ghost use Rattle.mj_hall.specs.HallValue.{asks_for, labels_to_give};
ghost use Rattle.mj_hall.specs.Whose.{stays};

use crate::counts::{busied, count_in, count_out, is_past};
use crate::crew::{shut_after, waiting_worker, worker_goes, worker_waits};
use crate::desks::is_staffed;
use crate::floor::{request_comes, request_leaves};
use crate::kept::{Queued, Worker};
use crate::labels::number_all;
use crate::leaving::{Whose, last_whose, request_goes};
use crate::offered::{origin_of, waiter_of};
use crate::ready::{firsts_of, mark, unmark};
use crate::room::{can_count, has_place, is_awaited, room_for_request, room_for_worker};
use crate::workplace::{worker_comes, worker_leaves};
use mj_base::{Limits, Name, NoMemory};
use mj_chain::{Desk, Node};
use mj_counted::{Index, Order, Rows, Steps};
use mj_queue::{AskFault, Offer, Request};
use std::alloc::Global;
use std::marker::Model;
use std::sync::ledger::Ledger;

/// The workers and the requests of a broker: who waits longest, who is busy, and what was asked first.
#[derive(Drop)]
pub struct Hall {
    limits: Limits,
    requests: Rows<Node<Queued>>,
    workers: Rows<Node<Worker>>,
    desks: Rows<Desk>,
    names: Index,
    clients: Order,
    tickets: Order,
    conns: Order,
    pairs: Order,
    request_first: usize,
    request_last: usize,
    request_count: usize,
    waiting_first: usize,
    waiting_last: usize,
    waiting_count: usize,
    busy_first: usize,
    busy_last: usize,
    busy_count: usize,
    next: u64,
    queued: u64,
    weight: u64,
}

impl Model for Hall {
    ghost use Rattle.mj_hall.specs.HallValue.{HallValue};

    ghost Value = { HallValue };

    ghost use Rattle.mj_hall.specs.Stands.{IsHall, seen};

    ghost view = { seen };

    ghost invariant = { IsHall };
}

impl Hall {
    /// A hall with nobody in it.
    pub fn new(alloc: Global, limits: &Limits) -> Hall
        ensures { result ≡ record { state = record { limits = limits.now; waiting = []; busy = []; requests = [] }; labels = 2 ^ 64 - 1 } }
    {
        Hall::labelled_from(alloc, limits, 0)
    }

    /// A hall with nobody in it, whose first request has this label. Where labels end the requests are numbered
    /// anew; from here a test gets there.
    pub fn labelled_from(alloc: Global, limits: &Limits, label: u64) -> Hall
        ensures { result ≡ record { state = record { limits = limits.now; waiting = []; busy = []; requests = [] }; labels = 2 ^ 64 - 1 - label } }
    {
        Hall {
            limits: *limits,
            requests: Rows::new(alloc),
            workers: Rows::new(alloc),
            desks: Rows::new(alloc),
            names: Index::new(alloc),
            clients: Order::new(alloc),
            tickets: Order::new(alloc),
            conns: Order::new(alloc),
            pairs: Order::new(alloc),
            request_first: 0,
            request_last: 0,
            request_count: 0,
            waiting_first: 0,
            waiting_last: 0,
            waiting_count: 0,
            busy_first: 0,
            busy_last: 0,
            busy_count: 0,
            next: label,
            queued: 0,
            weight: 0,
        }
    }

    /// Takes the hall apart. Each field is named here and put where its type is, so that no further one goes unseen.
    pub fn take_apart(self) {
        let Hall {
            limits,
            requests,
            workers,
            desks,
            names,
            clients,
            tickets,
            conns,
            pairs,
            request_first,
            request_last,
            request_count,
            waiting_first,
            waiting_last,
            waiting_count,
            busy_first,
            busy_last,
            busy_count,
            next,
            queued,
            weight,
        } = self;
        let _limits: Limits = limits;
        let _rows: (Rows<Node<Queued>>, Rows<Node<Worker>>, Rows<Desk>) = (
            requests, workers, desks,
        );
        let _orders: (Index, Order, Order, Order, Order) = (names, clients, tickets, conns, pairs);
        let _requests: [usize; 3] = [request_first, request_last, request_count];
        let _waiting: [usize; 3] = [waiting_first, waiting_last, waiting_count];
        let _busy: [usize; 3] = [busy_first, busy_last, busy_count];
        let _numbers: [u64; 3] = [next, queued, weight];
    }

    /// Whether some request's service has a waiting worker.
    pub fn has_pair<L: Ledger>(&self, steps: &mut Steps<L>) -> bool
        ensures value { result ≡ is_some (pair self.now.state.waiting self.now.state.requests) }
        ensures cost { steps.new ≡ steps.old + 1 }
    {
        self.pairs.get(0, steps).is_some()
    }

    /// Takes out the first request whose service has a waiting worker, and the worker that has waited for it
    /// longest, which is busy then. None where there is no such request.
    pub fn take_pair<L: Ledger>(&mut self, steps: &mut Steps<L>) -> Option<(u64, Request)>
        ensures takes { Takes self.old.state self.new.state result }
        ensures labels { self.new.labels ≡ self.old.labels }
        ensures cost { steps.new ≤ steps.old + 40 }
    {
        let (label, desk) = self.pairs.get(0, steps)?;
        let (row, key) = firsts_of(&self.desks, desk, steps).unwrap();
        self.pairs.remove((label, desk), steps);
        let queued = request_leaves(
            &mut self.requests,
            &mut self.clients,
            &mut self.tickets,
            &mut self.desks,
            &mut self.request_first,
            &mut self.request_last,
            &mut self.request_count,
            row,
            steps,
        )
        .unwrap();
        let worker = worker_leaves(
            &mut self.workers,
            &mut self.conns,
            &mut self.desks,
            &mut self.waiting_first,
            &mut self.waiting_last,
            &mut self.waiting_count,
            key,
            steps,
        )
        .unwrap();
        let number = worker.waiter.worker;
        worker_comes(
            &mut self.workers,
            &mut self.conns,
            &mut self.desks,
            &mut self.busy_first,
            &mut self.busy_last,
            &mut self.busy_count,
            busied(worker),
            steps,
        );
        mark(&mut self.pairs, &self.desks, &self.requests, desk, steps);
        count_out(&mut self.queued, &mut self.weight, &queued.request);
        Some((number, queued.request))
    }

    /// Whether a worker waits for this service or is busy with it.
    pub fn has_worker<L: Ledger>(&self, name: &Name, steps: &mut Steps<L>) -> bool
        ensures value { result ≡ is_served name.now self.now.state.waiting self.now.state.busy }
        ensures cost { steps.new ≤ steps.old + 2 }
    {
        match self.names.get(name, steps) {
            Some(desk) => is_staffed(&self.desks, desk, steps),
            None => false,
        }
    }

    /// Whether anybody asks for this service, waits for it or is busy with it: no other service is kept.
    pub fn is_known<L: Ledger>(&self, name: &Name, steps: &mut Steps<L>) -> bool
        ensures value { result ≡ (list_any (asks_for name.now) self.now.state.requests || is_served name.now self.now.state.waiting self.now.state.busy) }
        ensures cost { steps.new ≡ steps.old + 1 }
    {
        self.names.get(name, steps).is_some()
    }

    /// The number of queued client requests.
    pub fn queued(&self) -> u64
        ensures { result ≡ queued self.now.state.requests }
    {
        self.queued
    }

    /// Puts the request last, or gives it back with what stands against it.
    pub fn ask<L: Ledger>(&mut self, request: Request, steps: &mut Steps<L>) -> Result<(), AskFault>
        ensures asked { Asked self.old.state self.new.state request result }
        ensures labels { OnOk result (labels_to_give self.old ≤ self.new.labels + 1) }
        ensures labels_stay { OnErr result (self.old.labels ≤ self.new.labels) }

        // Where labels have ended, all requests are numbered anew, which takes a step for each and more.
        ensures cost { 0 < self.old.labels → steps.new ≤ steps.old + 40 }
    {
        if self.is_too_much(&request, steps) {
            return Err(AskFault::QueueFull(request));
        }
        match self.put(request, steps) {
            Ok(()) => Ok(()),
            Err(back) => Err(AskFault::NoMemory(back)),
        }
    }

    /// Puts the request last, however many are queued.
    pub fn queue<L: Ledger>(
        &mut self,
        request: Request,
        steps: &mut Steps<L>,
    ) -> Result<(), NoMemory>
        ensures ok { OnOk result (self.new.state ≡ record self.old.state { requests = self.old.state.requests ++ request ∷ [] }) }
        ensures err { OnErr result (self.new.state ≡ self.old.state) }
        ensures labels { OnOk result (labels_to_give self.old ≤ self.new.labels + 1) }
        ensures labels_stay { OnErr result (self.old.labels ≤ self.new.labels) }
        ensures cost { 0 < self.old.labels → steps.new ≤ steps.old + 40 }
    {
        match self.put(request, steps) {
            Ok(()) => Ok(()),
            Err(_) => Err(NoMemory),
        }
    }

    /// Puts the request last. Without memory it is given back.
    fn put<L: Ledger>(&mut self, request: Request, steps: &mut Steps<L>) -> Result<(), Request>
        ensures ok { OnOk result (self.new.state ≡ record self.old.state { requests = self.old.state.requests ++ request ∷ [] }) }
        ensures err { IfErr result (λ back. (back ≡ request) × (self.new.state ≡ self.old.state)) }
        ensures labels { OnOk result (labels_to_give self.old ≤ self.new.labels + 1) }
        ensures labels_stay { OnErr result (self.old.labels ≤ self.new.labels) }
        ensures cost { 0 < self.old.labels → steps.new ≤ steps.old + 20 }
    {
        self.make_label(steps);
        self.put_last(request, steps)
    }

    /// Sees to it that a label is left, unless there are as many requests as labels.
    fn make_label<L: Ledger>(&mut self, steps: &mut Steps<L>)
        ensures state { self.new.state ≡ self.old.state }
        ensures labels { self.new.labels ≡ labels_to_give self.old }
        ensures cost { 0 < self.old.labels → steps.new ≡ steps.old }
    {
        if self.next < u64::MAX {
            return;
        }
        self.number_anew(steps);
    }

    /// Numbers all requests anew from 0.
    fn number_anew<L: Ledger>(&mut self, steps: &mut Steps<L>)
        ensures state { self.new.state ≡ self.old.state }
        ensures labels { self.new.labels ≡ 2 ^ 64 - 1 - length self.old.state.requests }
    {
        number_all(
            &mut self.requests,
            &mut self.pairs,
            &self.desks,
            self.request_first,
            self.request_last,
            self.request_count,
            steps,
        );
        self.next = self.request_count as u64;
    }

    /// Puts the request last, with the next label. Without memory, or a label, it is given back.
    fn put_last<L: Ledger>(&mut self, request: Request, steps: &mut Steps<L>) -> Result<(), Request>
        ensures ok { OnOk result (self.new.state ≡ record self.old.state { requests = self.old.state.requests ++ request ∷ [] }) }
        ensures err { IfErr result (λ back. (back ≡ request) × (self.new.state ≡ self.old.state)) }
        ensures labels { OnOk result (self.old.labels ≤ self.new.labels + 1) }
        ensures labels_stay { OnErr result (self.new.labels ≡ self.old.labels) }
        ensures cost { steps.new ≤ steps.old + 20 }
    {
        if !can_count(
            self.next,
            self.request_count,
            self.queued,
            self.weight,
            &request,
        ) {
            return Err(request);
        }
        let desk = match room_for_request(
            &mut self.requests,
            &mut self.clients,
            &mut self.tickets,
            &mut self.pairs,
            &mut self.desks,
            &mut self.names,
            &request.service,
            steps,
        ) {
            Ok(desk) => desk,
            Err(_) => return Err(request),
        };
        unmark(&mut self.pairs, &self.desks, &self.requests, desk, steps);
        count_in(&mut self.queued, &mut self.weight, &request);
        let queued = Queued {
            request,
            label: self.next,
            desk,
        };
        request_comes(
            &mut self.requests,
            &mut self.clients,
            &mut self.tickets,
            &mut self.desks,
            &mut self.request_first,
            &mut self.request_last,
            &mut self.request_count,
            queued,
            steps,
        );
        mark(&mut self.pairs, &self.desks, &self.requests, desk, steps);
        self.next += 1;
        Ok(())
    }

    /// Puts the worker last among those that wait, with this service. A busy one is busy no more, and one that
    /// waits already waits anew.
    pub fn wait<L: Ledger>(
        &mut self,
        conn: u64,
        name: &Name,
        steps: &mut Steps<L>,
    ) -> Result<(), NoMemory>
        ensures ok { OnOk result (self.new.state ≡ waits conn name.now self.old.state) }
        ensures err { OnErr result (self.new.state ≡ self.old.state) }
        ensures labels { self.new.labels ≡ self.old.labels }
        ensures cost { steps.new ≤ steps.old + 40 }
    {
        if !has_place(self.waiting_count, self.busy_count) {
            return Err(NoMemory);
        }
        let desk = room_for_worker(
            &mut self.workers,
            &mut self.conns,
            &mut self.pairs,
            &mut self.desks,
            &mut self.names,
            name,
            steps,
        )?;
        let gone = worker_goes(
            &self.requests,
            &mut self.workers,
            &mut self.conns,
            &mut self.desks,
            &mut self.pairs,
            &mut self.waiting_first,
            &mut self.waiting_last,
            &mut self.waiting_count,
            &mut self.busy_first,
            &mut self.busy_last,
            &mut self.busy_count,
            conn,
            steps,
        );
        worker_waits(
            &self.requests,
            &mut self.workers,
            &mut self.conns,
            &mut self.desks,
            &mut self.pairs,
            &mut self.waiting_first,
            &mut self.waiting_last,
            &mut self.waiting_count,
            waiting_worker(conn, name, desk),
            steps,
        );
        shut_after(&mut self.desks, &mut self.names, gone, steps);
        Ok(())
    }

    /// Takes the worker out, whether it waits or is busy.
    pub fn drop_worker<L: Ledger>(&mut self, conn: u64, steps: &mut Steps<L>)
        ensures state { self.new.state ≡ record self.old.state { waiting = without_worker conn self.old.state.waiting; busy = without_worker conn self.old.state.busy } }
        ensures labels { self.new.labels ≡ self.old.labels }
        ensures cost { steps.new ≤ steps.old + 40 }
    {
        let gone = worker_goes(
            &self.requests,
            &mut self.workers,
            &mut self.conns,
            &mut self.desks,
            &mut self.pairs,
            &mut self.waiting_first,
            &mut self.waiting_last,
            &mut self.waiting_count,
            &mut self.busy_first,
            &mut self.busy_last,
            &mut self.busy_count,
            conn,
            steps,
        );
        shut_after(&mut self.desks, &mut self.names, gone, steps);
    }

    /// Takes out every request of this client.
    pub fn drop_client<L: Ledger>(&mut self, conn: u64, steps: &mut Steps<L>)
        ensures state { self.new.state ≡ record self.old.state { requests = without_client conn self.old.state.requests } }
        ensures labels { self.new.labels ≡ self.old.labels }
        ensures cost { steps.new ≤ steps.old + 40 * (length self.old.state.requests - length self.new.state.requests) + 40 }
    {
        self.drop_all(Whose::Client(conn), steps);
    }

    /// Takes out every request of this ticket.
    pub fn drop_ticket<L: Ledger>(&mut self, number: u64, steps: &mut Steps<L>)
        ensures state { self.new.state ≡ record self.old.state { requests = without_ticket number self.old.state.requests } }
        ensures labels { self.new.labels ≡ self.old.labels }
        ensures cost { steps.new ≤ steps.old + 40 * (length self.old.state.requests - length self.new.state.requests) + 40 }
    {
        self.drop_all(Whose::Ticket(number), steps);
    }

    /// Takes out the requests of all tickets.
    pub fn drop_tickets<L: Ledger>(&mut self, steps: &mut Steps<L>)
        ensures state { self.new.state ≡ record self.old.state { requests = filter (λ r. Settling.is_of_client r.origin) self.old.state.requests } }
        ensures labels { self.new.labels ≡ self.old.labels }
        ensures cost { steps.new ≤ steps.old + 40 * (length self.old.state.requests - length self.new.state.requests) + 40 }
    {
        self.drop_all(Whose::Tickets, steps);
    }

    fn drop_all<L: Ledger>(&mut self, whose: Whose, steps: &mut Steps<L>)
        ensures state { self.new.state ≡ record self.old.state { requests = filter (stays whose) self.old.state.requests } }
        ensures labels { self.new.labels ≡ self.old.labels }
        ensures cost { steps.new ≤ steps.old + 40 * (length self.old.state.requests - length self.new.state.requests) + 40 }
    {
        while self.drop_one(whose, steps) {}
    }

    /// Takes out one of these requests, and answers whether there was one.
    fn drop_one<L: Ledger>(&mut self, whose: Whose, steps: &mut Steps<L>) -> bool
        ensures others { self.new.state ≡ record self.old.state { requests = self.new.state.requests } }
        ensures kept { filter (stays whose) self.new.state.requests ≡ filter (stays whose) self.old.state.requests }
        ensures fewer { length self.new.state.requests + (if result then 1 else 0) ≡ length self.old.state.requests }
        ensures none { result ≡ false → filter (stays whose) self.new.state.requests ≡ self.new.state.requests }
        ensures labels { self.new.labels ≡ self.old.labels }
        ensures cost { steps.new ≤ steps.old + 22 }
    {
        let Some(key) = last_whose(&self.clients, &self.tickets, whose, steps) else {
            return false;
        };
        request_goes(
            &mut self.requests,
            &mut self.clients,
            &mut self.tickets,
            &mut self.desks,
            &mut self.names,
            &mut self.pairs,
            &mut self.request_first,
            &mut self.request_last,
            &mut self.request_count,
            &mut self.queued,
            &mut self.weight,
            key,
            steps,
        );
        true
    }

    /// The pair that `take_pair` takes, which stays where it is.
    pub fn offer<L: Ledger>(&self, steps: &mut Steps<L>) -> Option<Offer>
        ensures value { result ≡ option_map offer_of (pair self.now.state.waiting self.now.state.requests) }
        ensures cost { steps.new ≤ steps.old + 4 }
    {
        let (_label, desk) = self.pairs.get(0, steps)?;
        let (row, key) = firsts_of(&self.desks, desk, steps).unwrap();
        let origin = origin_of(&self.requests, row, steps).unwrap();
        let waiter = waiter_of(&self.workers, key, steps).unwrap();
        Some(Offer {
            worker: waiter.worker,
            service: waiter.service,
            origin,
        })
    }

    /// Whether this is a client request that no worker waits for, and too many are queued or they would weigh
    /// too much with it.
    fn is_too_much<L: Ledger>(&self, request: &Request, steps: &mut Steps<L>) -> bool
        ensures value { result ≡ Settling.is_too_much self.now.state.limits self.now.state.waiting self.now.state.requests request.now }
        ensures cost { steps.new ≤ steps.old + 2 }
    {
        let awaited = is_awaited(&self.desks, &self.names, &request.service, steps);
        is_past(&self.limits, self.queued, self.weight, awaited, request)
    }
}
