ghost use Rattle.std.specs.Prelude.{◌≡◌, ◌≤◌, filter, position, vec_len, vec_capacity};
ghost use Rattle.std.specs.List.{list_any};
ghost use Rattle.mj_queue.specs.Settling;
ghost use Rattle.mj_queue.specs.Settling.{serves, has_waiter, without_client, without_ticket, without_worker};

use super::{Origin, Request, Waiter};
use mj_base::Name;

/// The place of the first request whose service has a waiting worker.
pub fn place_of_request(requests: &[Request], waiting: &[Waiter]) -> Option<usize>
    ensures { result ≡ position (has_waiter waiting.now) requests.now }
{
    requests
        .iter()
        .position(|request| some_serves(waiting, &request.service))
}

/// Whether some request's service has a waiting worker.
pub fn some_asked(requests: &[Request], waiting: &[Waiter]) -> bool
    ensures { result ≡ list_any (has_waiter waiting.now) requests.now }
{
    requests
        .iter()
        .any(|request| some_serves(waiting, &request.service))
}

/// The place of the first worker that serves this.
pub fn place_of_worker(workers: &[Waiter], service: &Name) -> Option<usize>
    ensures { result ≡ position (serves service.now) workers.now }
{
    workers
        .iter()
        .position(|worker| serves_name(worker, service))
}

/// Whether one of these workers serves this.
pub fn some_serves(workers: &[Waiter], service: &Name) -> bool
    ensures { result ≡ list_any (serves service.now) workers.now }
{
    workers.iter().any(|worker| serves_name(worker, service))
}

fn serves_name(worker: &Waiter, service: &Name) -> bool
    ensures { result ≡ serves service.now worker.now }
{
    worker.service.as_slice() == service.as_slice()
}

/// Takes this worker out.
pub fn drop_worker(workers: &mut Vec<Waiter>, number: u64)
    ensures items { workers.new.items ≡ without_worker number workers.old.items }
    ensures len { vec_len workers.new ≤ vec_len workers.old }
    ensures capacity { vec_capacity workers.new ≡ vec_capacity workers.old }
{
    workers.retain(|worker| worker.worker != number);
}

/// Takes out all requests of this client.
pub fn drop_client(requests: &mut Vec<Request>, number: u64)
    ensures { requests.new.items ≡ without_client number requests.old.items }
{
    requests.retain(|request| !is_client(request.origin, number));
}

/// Takes out all requests of this ticket.
pub fn drop_ticket(requests: &mut Vec<Request>, number: u64)
    ensures { requests.new.items ≡ without_ticket number requests.old.items }
{
    requests.retain(|request| !is_ticket(request.origin, number));
}

/// Takes out the requests of all tickets.
pub fn drop_tickets(requests: &mut Vec<Request>)
    ensures { requests.new.items ≡ filter (λ r. Settling.is_of_client r.origin) requests.old.items }
{
    requests.retain(|request| is_of_client(request.origin));
}

fn is_client(origin: Origin, number: u64) -> bool
    ensures { result ≡ Settling.is_client number origin }
{
    match origin {
        Origin::Client(client) => client == number,
        Origin::Ticket(_) => false,
    }
}

fn is_ticket(origin: Origin, number: u64) -> bool
    ensures { result ≡ Settling.is_ticket number origin }
{
    match origin {
        Origin::Client(_) => false,
        Origin::Ticket(ticket) => ticket == number,
    }
}

/// Whether a client asks.
pub fn is_of_client(origin: Origin) -> bool
    ensures { result ≡ Settling.is_of_client origin }
{
    match origin {
        Origin::Client(_) => true,
        Origin::Ticket(_) => false,
    }
}
