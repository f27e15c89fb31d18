//! The workers and the requests of a broker, as `mj_hall` keeps them. Each call makes the counter of its steps.
ghost use Rattle.std.specs.Prelude.{◌≡◌, ◌<◌, ◌++◌, ◌∷◌, [], option_map, filter, OnOk, OnErr};
ghost use Rattle.mj_queue.specs.HallSteps.{Asked, Takes, waits};
ghost use Rattle.mj_queue.specs.Offers.{offer_of};
ghost use Rattle.mj_queue.specs.Settling.{is_of_client, is_served, pair, queued, without_client, without_ticket, without_worker};

use mj_base::{Limits, Name, NoMemory};
use mj_counted::Steps;
use mj_queue::{AskFault, Offer, Request};
use std::alloc::Global;
use std::marker::{Brand, Model};
use std::sync::ledger::{Blank, Ledger};

/// The workers and the requests of a broker: who waits longest, who is busy, and what was asked first.
#[derive(Drop)]
pub struct Hall {
    counted: mj_hall::Hall,
}

impl Model for Hall {
    ghost use Rattle.mj_queue.specs.HallState.{HallState};

    ghost Value = { HallState };

    ghost view = { λ h. h.counted.state };
}

impl Hall {
    /// A hall with nobody in it.
    pub fn new(alloc: Global, limits: &Limits) -> Hall
        ensures { result ≡ record { limits = limits.now; waiting = []; busy = []; requests = [] } }
    {
        Hall {
            counted: mj_hall::Hall::new(alloc, limits),
        }
    }

    /// The number of queued client requests.
    pub fn queued(&self) -> u64
        ensures { result ≡ queued self.now.requests }
    {
        self.counted.queued()
    }

    /// Puts the worker last among those that wait, with this service. A busy one is busy no more, and one that
    /// waits already waits anew.
    pub fn wait(&mut self, conn: u64, name: &Name) -> Result<(), NoMemory>
        ensures ok { OnOk result (self.new ≡ waits conn name.now self.old) }
        ensures err { OnErr result (self.new ≡ self.old) }
    {
        wait::<Brand>(&mut self.counted, conn, name, Blank::new(1))
    }

    /// Puts the request last, or gives it back with what stands against it.
    pub fn ask(&mut self, request: Request) -> Result<(), AskFault>
        ensures { Asked self.old self.new request result }
    {
        ask::<Brand>(&mut self.counted, request, Blank::new(1))
    }

    /// Puts the request last, however many are queued.
    pub fn queue(&mut self, request: Request) -> Result<(), NoMemory>
        ensures ok { OnOk result (self.new ≡ record self.old { requests = self.old.requests ++ request ∷ [] }) }
        ensures err { OnErr result (self.new ≡ self.old) }
    {
        queue::<Brand>(&mut self.counted, request, Blank::new(1))
    }

    /// Takes out the first request whose service has a waiting worker, and the worker that has waited for it
    /// longest, which is busy then. None where there is no such request.
    pub fn take_pair(&mut self) -> Option<(u64, Request)>
        ensures { Takes self.old self.new result }
    {
        take_pair::<Brand>(&mut self.counted, Blank::new(1))
    }

    /// The pair that `take_pair` takes, which stays where it is.
    pub fn offer(&self) -> Option<Offer>
        ensures { result ≡ option_map offer_of (pair self.now.waiting self.now.requests) }
    {
        offer::<Brand>(&self.counted, Blank::new(1))
    }

    /// Takes the worker out, whether it waits or is busy.
    pub fn drop_worker(&mut self, conn: u64)
        ensures { self.new ≡ record self.old { waiting = without_worker conn self.old.waiting; busy = without_worker conn self.old.busy } }
    {
        drop_worker::<Brand>(&mut self.counted, conn, Blank::new(1));
    }

    /// Takes out every request of this client.
    pub fn drop_client(&mut self, conn: u64)
        ensures { self.new ≡ record self.old { requests = without_client conn self.old.requests } }
    {
        drop_client::<Brand>(&mut self.counted, conn, Blank::new(1));
    }

    /// Takes out every request of this ticket.
    pub fn drop_ticket(&mut self, number: u64)
        ensures { self.new ≡ record self.old { requests = without_ticket number self.old.requests } }
    {
        drop_ticket::<Brand>(&mut self.counted, number, Blank::new(1));
    }

    /// Takes out the requests of all tickets.
    pub fn drop_tickets(&mut self)
        ensures { self.new ≡ record self.old { requests = filter (λ r. is_of_client r.origin) self.old.requests } }
    {
        drop_tickets::<Brand>(&mut self.counted, Blank::new(1));
    }

    /// Whether a worker waits for this service or is busy with it.
    pub fn has_worker(&self, name: &Name) -> bool
        ensures { result ≡ is_served name.now self.now.waiting self.now.busy }
    {
        has_worker::<Brand>(&self.counted, name, Blank::new(1))
    }
}

fn wait<L: Ledger>(
    hall: &mut mj_hall::Hall,
    conn: u64,
    name: &Name,
    blank: Blank,
) -> Result<(), NoMemory>
    requires name { blank.name ≡ L.name }
    requires parts { (blank.parts ≡ L.parts) × (0 < L.parts) }
    ensures ok { OnOk result (hall.new.state ≡ waits conn name.now hall.old.state) }
    ensures err { OnErr result (hall.new.state ≡ hall.old.state) }
{
    hall.wait(conn, name, &mut Steps::<L>::new(blank))
}

fn ask<L: Ledger>(hall: &mut mj_hall::Hall, request: Request, blank: Blank) -> Result<(), AskFault>
    requires name { blank.name ≡ L.name }
    requires parts { (blank.parts ≡ L.parts) × (0 < L.parts) }
    ensures does { Asked hall.old.state hall.new.state request result }
{
    hall.ask(request, &mut Steps::<L>::new(blank))
}

fn queue<L: Ledger>(
    hall: &mut mj_hall::Hall,
    request: Request,
    blank: Blank,
) -> Result<(), NoMemory>
    requires name { blank.name ≡ L.name }
    requires parts { (blank.parts ≡ L.parts) × (0 < L.parts) }
    ensures ok { OnOk result (hall.new.state ≡ record hall.old.state { requests = hall.old.state.requests ++ request ∷ [] }) }
    ensures err { OnErr result (hall.new.state ≡ hall.old.state) }
{
    hall.queue(request, &mut Steps::<L>::new(blank))
}

fn take_pair<L: Ledger>(hall: &mut mj_hall::Hall, blank: Blank) -> Option<(u64, Request)>
    requires name { blank.name ≡ L.name }
    requires parts { (blank.parts ≡ L.parts) × (0 < L.parts) }
    ensures does { Takes hall.old.state hall.new.state result }
{
    hall.take_pair(&mut Steps::<L>::new(blank))
}

fn offer<L: Ledger>(hall: &mj_hall::Hall, blank: Blank) -> Option<Offer>
    requires name { blank.name ≡ L.name }
    requires parts { (blank.parts ≡ L.parts) × (0 < L.parts) }
    ensures does { result ≡ option_map offer_of (pair hall.now.state.waiting hall.now.state.requests) }
{
    hall.offer(&mut Steps::<L>::new(blank))
}

fn drop_worker<L: Ledger>(hall: &mut mj_hall::Hall, conn: u64, blank: Blank)
    requires name { blank.name ≡ L.name }
    requires parts { (blank.parts ≡ L.parts) × (0 < L.parts) }
    ensures does { hall.new.state ≡ record hall.old.state { waiting = without_worker conn hall.old.state.waiting; busy = without_worker conn hall.old.state.busy } }
{
    hall.drop_worker(conn, &mut Steps::<L>::new(blank));
}

fn drop_client<L: Ledger>(hall: &mut mj_hall::Hall, conn: u64, blank: Blank)
    requires name { blank.name ≡ L.name }
    requires parts { (blank.parts ≡ L.parts) × (0 < L.parts) }
    ensures does { hall.new.state ≡ record hall.old.state { requests = without_client conn hall.old.state.requests } }
{
    hall.drop_client(conn, &mut Steps::<L>::new(blank));
}

fn drop_ticket<L: Ledger>(hall: &mut mj_hall::Hall, number: u64, blank: Blank)
    requires name { blank.name ≡ L.name }
    requires parts { (blank.parts ≡ L.parts) × (0 < L.parts) }
    ensures does { hall.new.state ≡ record hall.old.state { requests = without_ticket number hall.old.state.requests } }
{
    hall.drop_ticket(number, &mut Steps::<L>::new(blank));
}

fn drop_tickets<L: Ledger>(hall: &mut mj_hall::Hall, blank: Blank)
    requires name { blank.name ≡ L.name }
    requires parts { (blank.parts ≡ L.parts) × (0 < L.parts) }
    ensures does { hall.new.state ≡ record hall.old.state { requests = filter (λ r. is_of_client r.origin) hall.old.state.requests } }
{
    hall.drop_tickets(&mut Steps::<L>::new(blank));
}

fn has_worker<L: Ledger>(hall: &mj_hall::Hall, name: &Name, blank: Blank) -> bool
    requires name { blank.name ≡ L.name }
    requires parts { (blank.parts ≡ L.parts) × (0 < L.parts) }
    ensures does { result ≡ is_served name.now hall.now.state.waiting hall.now.state.busy }
{
    hall.has_worker(name, &mut Steps::<L>::new(blank))
}
