//! The requests that workers hold, by worker, in the order in which they were given.
ghost use Rattle.std.specs.Prelude.{◌≡◌, ◌++◌, ◌∷◌, [], ◌<◌, None, Some, IfOk};
ghost use Rattle.indexmap.specs.IndexMap.{spare};
ghost use Rattle.mj_keeper.specs.Standing.{told_on};
ghost use Rattle.mj_machine.specs.Leaving;
ghost use Rattle.mj_machine.specs.Leaving.{held_without};
ghost use Rattle.mj_machine.specs.TickStep;
ghost use Rattle.mj_routing.specs.Holding.{AreTicketsOf, held_in};
ghost use Rattle.mj_routing.specs.Returning;

use indexmap::{IndexMap, IndexSet};
use mj_base::NoMemory;
use mj_keeper::Keeper;
use mj_queue::{Origin, Request};
use std::alloc::Global;

/// A copy of the request that this worker holds.
pub fn held_by(held: &IndexMap<u64, Request>, worker: u64) -> Result<Option<Request>, NoMemory>
    ensures { IfOk result (λ request. request ≡ Leaving.held_by worker (held_in held.now)) }
{
    match held.get(&worker) {
        None => Ok(None),
        Some(request) => Ok(Some(copy_request(request)?)),
    }
}

fn copy_request(request: &Request) -> Result<Request, NoMemory>
    ensures { IfOk result (λ copy. copy ≡ request.now) }
{
    Ok(Request {
        origin: request.origin,
        service: request.service.copy(),
        version: request.version,
        lead: request.lead,
        body: request.body.copy()?,
    })
}

/// Whether this worker holds a request.
pub fn is_holding(held: &IndexMap<u64, Request>, worker: u64) -> bool
    ensures { result ≡ TickStep.is_holding worker (held_in held.now) }
{
    held.contains_key(&worker)
}

/// Gives this request to a worker that holds none, where there is room.
pub fn give(held: &mut IndexMap<u64, Request>, worker: u64, request: Request)
    requires none { Leaving.held_by worker (held_in held.old) ≡ None }
    requires room { 0 < spare held.old }
    ensures { held_in held.new ≡ held_in held.old ++ record { worker = worker; request = request } ∷ [] }
{
    held.insert(worker, request).unwrap();
}

/// Takes out what this worker holds.
pub fn drop_held(held: &mut IndexMap<u64, Request>, worker: u64)
    ensures { held_in held.new ≡ held_without worker (held_in held.old) }
{
    held.shift_remove(&worker);
}

/// Takes out what this worker holds, and gives it where it is the request of a ticket that still pends.
pub fn release(held: &mut IndexMap<u64, Request>, worker: u64, tickets: &Keeper) -> Option<Request>
    ensures back { result ≡ Returning.coming_back (told_on tickets.now.shelf) (Leaving.held_by worker (held_in held.old)) }
    ensures held { held_in held.new ≡ held_without worker (held_in held.old) }
{
    let request = held.shift_remove(&worker)?;
    coming_back(request, tickets)
}

fn coming_back(request: Request, tickets: &Keeper) -> Option<Request>
    ensures { result ≡ Returning.coming_back (told_on tickets.now.shelf) (Some request) }
{
    match request.origin {
        Origin::Client(_client) => None,
        Origin::Ticket(number) => {
            if tickets.pends(number) {
                Some(request)
            } else {
                None
            }
        }
    }
}

/// The tickets whose requests workers hold.
pub fn tickets(held: &IndexMap<u64, Request>, alloc: Global) -> Result<IndexSet<u64>, NoMemory>
    ensures { IfOk result (AreTicketsOf (held_in held.now)) }
{
    let mut tickets = IndexSet::new(alloc);
    for request in held.values() {
        if let Origin::Ticket(number) = request.origin {
            tickets.insert(number)?;
        }
    }
    Ok(tickets)
}
