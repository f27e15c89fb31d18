ghost use Rattle.std.specs.Prelude.{◌≡◌, ◌++◌, ◌∷◌, [], is_some, option_map, filter, OnOk, OnErr, IfOk};
ghost use Rattle.mj_queue.specs.Settling;
ghost use Rattle.mj_queue.specs.Settling.{is_served, pair, queued, without_client, without_ticket, without_worker};
ghost use Rattle.mj_queue.specs.Offers.{offer_of};
ghost use Rattle.mj_queue.specs.HallSteps.{Asked, Takes, waits};

use super::places::{self, is_of_client, place_of_request, place_of_worker, some_serves};
use super::{AskFault, Offer, Request, Waiter, weight};
use mj_base::{Limits, Name, NoMemory};
use std::alloc::Global;
use std::marker::Model;

/// The workers and the requests of a broker: who waits longest, who is busy, and what was asked first.
#[derive(Drop)]
pub struct Hall {
    limits: Limits,
    waiting: Vec<Waiter>,
    busy: Vec<Waiter>,
    requests: Vec<Request>,
}

impl Model for Hall {
    ghost use Rattle.std.specs.Prelude.{◌≤◌, ◌+◌, vec_len, vec_capacity};
    ghost use Rattle.mj_queue.specs.HallState.{HallState};

    ghost Value = { HallState };

    ghost view = { λ h. record { limits = h.limits; waiting = h.waiting.items; busy = h.busy.items; requests = h.requests.items } };

    // Each waiting worker has its place among the busy ones.
    ghost invariant = { λ h. vec_len h.waiting + vec_len h.busy ≤ vec_capacity h.busy };
}

impl Hall {
    /// A hall with nobody in it.
    pub fn new(alloc: Global, limits: &Limits) -> Result<Hall, NoMemory>
        ensures { IfOk result (λ hall. hall ≡ record { limits = limits.now; waiting = []; busy = []; requests = [] }) }
    {
        Ok(Hall {
            limits: *limits,
            waiting: Vec::new(alloc),
            busy: Vec::new(alloc),
            requests: Vec::new(alloc),
        })
    }

    /// Puts the worker last among those that wait, with this service. A busy one is busy no more, and one that
    /// waits already waits anew.
    pub fn wait(&mut self, conn: u64, name: &Name) -> Result<(), NoMemory>
        ensures ok { OnOk result (self.new ≡ waits conn name.now self.old) }
        ensures err { OnErr result (self.new ≡ self.old) }
    {
        self.waiting.reserve(1)?;
        self.busy.reserve(self.waiting.len() + 1)?;
        let waiter = Waiter {
            worker: conn,
            service: name.copy(),
        };
        places::drop_worker(&mut self.waiting, waiter.worker);
        places::drop_worker(&mut self.busy, waiter.worker);
        self.waiting.push(waiter).unwrap();
        Ok(())
    }

    /// Puts the request last, or gives it back with what stands against it.
    pub fn ask(&mut self, request: Request) -> Result<(), AskFault>
        ensures { Asked self.old self.new request result }
    {
        if self.is_too_much(&request) {
            return Err(AskFault::QueueFull(request));
        }
        match self.requests.push(request) {
            Ok(()) => Ok(()),
            Err(failed) => Err(AskFault::NoMemory(failed.value)),
        }
    }

    /// Puts the request last, however many are queued.
    pub fn queue(&mut self, request: Request) -> Result<(), NoMemory>
        ensures ok { OnOk result (self.new ≡ record self.old { requests = self.old.requests ++ request ∷ [] }) }
        ensures err { OnErr result (self.new ≡ self.old) }
    {
        self.requests.push(request)?;
        Ok(())
    }

    /// Whether this is a client request that no worker waits for, and too many are queued or they would weigh
    /// too much with it.
    fn is_too_much(&self, request: &Request) -> bool
        ensures { result ≡ Settling.is_too_much self.now.limits self.now.waiting self.now.requests request.now }
    {
        if !is_of_client(request.origin) || some_serves(&self.waiting, &request.service) {
            return false;
        }
        weight::queued(&self.requests) >= self.limits.queued
            || !weight::fits(&self.requests, &request.body, self.limits.queued_weight)
    }

    /// Takes out the first request whose service has a waiting worker, and the worker that has waited for it
    /// longest, which is busy then. None where there is no such request.
    pub fn take_pair(&mut self) -> Option<(u64, Request)>
        ensures { Takes self.old self.new result }
    {
        let Some(at) = place_of_request(&self.requests, &self.waiting) else {
            return None;
        };
        let request = self.requests.remove(at);
        let place = place_of_worker(&self.waiting, &request.service).unwrap();
        let waiter = self.waiting.remove(place);
        let worker = waiter.worker;
        self.busy.push(waiter).unwrap();
        Some((worker, request))
    }

    /// The pair that `take_pair` takes, which stays where it is.
    pub fn offer(&self) -> Option<Offer>
        ensures { result ≡ option_map offer_of (pair self.now.waiting self.now.requests) }
    {
        let Some(at) = place_of_request(&self.requests, &self.waiting) else {
            return None;
        };
        let request = &self.requests[at];
        let place = place_of_worker(&self.waiting, &request.service).unwrap();
        let waiter = &self.waiting[place];
        Some(Offer {
            worker: waiter.worker,
            service: waiter.service.copy(),
            origin: request.origin,
        })
    }

    /// Whether some request's service has a waiting worker.
    pub fn has_pair(&self) -> bool
        ensures { result ≡ is_some (pair self.now.waiting self.now.requests) }
    {
        if self.waiting.is_empty() {
            return false;
        }
        places::some_asked(&self.requests, &self.waiting)
    }

    /// Takes the worker out, whether it waits or is busy.
    pub fn drop_worker(&mut self, conn: u64)
        ensures { self.new ≡ record self.old { waiting = without_worker conn self.old.waiting; busy = without_worker conn self.old.busy } }
    {
        places::drop_worker(&mut self.waiting, conn);
        places::drop_worker(&mut self.busy, conn);
    }

    /// Takes out every request of this client.
    pub fn drop_client(&mut self, conn: u64)
        ensures { self.new ≡ record self.old { requests = without_client conn self.old.requests } }
    {
        places::drop_client(&mut self.requests, conn);
    }

    /// Takes out every request of this ticket.
    pub fn drop_ticket(&mut self, number: u64)
        ensures { self.new ≡ record self.old { requests = without_ticket number self.old.requests } }
    {
        places::drop_ticket(&mut self.requests, number);
    }

    /// Takes out the requests of all tickets.
    pub fn drop_tickets(&mut self)
        ensures { self.new ≡ record self.old { requests = filter (λ r. Settling.is_of_client r.origin) self.old.requests } }
    {
        places::drop_tickets(&mut self.requests);
    }

    /// Whether a worker waits for this service or is busy with it.
    pub fn has_worker(&self, name: &Name) -> bool
        ensures { result ≡ is_served name.now self.now.waiting self.now.busy }
    {
        some_serves(&self.waiting, name) || some_serves(&self.busy, name)
    }

    /// The number of queued client requests.
    pub fn queued(&self) -> u64
        ensures { result ≡ queued self.now.requests }
    {
        weight::queued(&self.requests)
    }
}
