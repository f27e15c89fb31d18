ghost use Rattle.std.specs.Prelude.{◌≡◌, ◌+◌, ◌≤◌, ◌<◌, ◌++◌, ◌∷◌, [], ◌==◌, ◌&&◌, if◌then◌else◌, ℕ, List, None, Some, OnSome, true, false};
ghost use Rattle.mj_counted.specs.Rows.{entries, entry, spare};
ghost use Rattle.mj_counted.specs.Pairs.{has_pair};
ghost use Rattle.mj_chain.specs.Seats.{Seat, found, has_key, is_key, is_no_key, last_from, seat_key, take_out};
ghost use Rattle.mj_hall.specs.Asking.{Asking, has_origin, of_desk, of_origin, same_origin};

use crate::kept::Queued;
use crate::lasts::{step_back, step_on};
use mj_chain::{Link, Node, put_node, take_node};
use mj_counted::{Order, Rows, Steps, key_for};
use mj_queue::Origin;
use std::sync::ledger::Ledger;

/// The last request of this origin.
pub fn last_of<L: Ledger>(
    clients: &Order,
    tickets: &Order,
    origin: Origin,
    steps: &mut Steps<L>,
) -> Option<usize>
    ensures last { (requests : Rows (Node Queued)) (es : List (Seat Queued)) → Asking requests clients.now.pairs tickets.now.pairs es → result ≡ last_from seat_key None (of_origin origin es) }
    ensures cost { steps.new ≡ steps.old + 2 }
{
    match origin {
        Origin::Client(number) => key_for(clients, number, steps),
        Origin::Ticket(number) => key_for(tickets, number, steps),
    }
}

/// A request with this link leaves the chain of its origin.
fn origin_back<L: Ledger>(
    clients: &mut Order,
    tickets: &mut Order,
    origin: Origin,
    gone: Link,
    key: usize,
    steps: &mut Steps<L>,
)
    requires last { is_no_key gone.next ≡ true → (j : ℕ) → has_origin clients.old.pairs tickets.old.pairs j origin ≡ (key == j) }
    ensures clients { (p : ℕ × ℕ) → has_pair p clients.new.pairs ≡ (if same_origin (Origin.Client p.0) origin && is_no_key gone.next then is_key p.1 gone.prev else has_pair p clients.old.pairs) }
    ensures tickets { (p : ℕ × ℕ) → has_pair p tickets.new.pairs ≡ (if same_origin (Origin.Ticket p.0) origin && is_no_key gone.next then is_key p.1 gone.prev else has_pair p tickets.old.pairs) }
    ensures clients_room { clients.old.spare ≤ clients.new.spare }
    ensures tickets_room { tickets.old.spare ≤ tickets.new.spare }
    ensures cost { steps.new ≤ steps.old + 2 }
{
    match origin {
        Origin::Client(number) => step_back(clients, number, gone, key, steps),
        Origin::Ticket(number) => step_back(tickets, number, gone, key, steps),
    }
}

/// A request comes last into the chain of its origin, behind `last`.
fn origin_on<L: Ledger>(
    clients: &mut Order,
    tickets: &mut Order,
    origin: Origin,
    last: Option<usize>,
    key: usize,
    steps: &mut Steps<L>,
)
    requires last { (j : ℕ) → has_origin clients.old.pairs tickets.old.pairs j origin ≡ is_key j last }
    requires clients_room { 0 < clients.old.spare }
    requires tickets_room { 0 < tickets.old.spare }
    ensures clients { (p : ℕ × ℕ) → has_pair p clients.new.pairs ≡ (if same_origin (Origin.Client p.0) origin then key == p.1 else has_pair p clients.old.pairs) }
    ensures tickets { (p : ℕ × ℕ) → has_pair p tickets.new.pairs ≡ (if same_origin (Origin.Ticket p.0) origin then key == p.1 else has_pair p tickets.old.pairs) }
    ensures clients_spare { clients.old.spare ≤ clients.new.spare + 1 }
    ensures tickets_spare { tickets.old.spare ≤ tickets.new.spare + 1 }
    ensures cost { steps.new ≤ steps.old + 2 }
{
    match origin {
        Origin::Client(number) => step_on(clients, number, last, key, steps),
        Origin::Ticket(number) => step_on(tickets, number, last, key, steps),
    }
}

/// Takes out the request of this key, which is there.
pub fn request_out<L: Ledger>(
    requests: &mut Rows<Node<Queued>>,
    clients: &mut Order,
    tickets: &mut Order,
    key: usize,
    steps: &mut Steps<L>,
) -> Option<Node<Queued>>
    requires stands { (es : List (Seat Queued)) × (x : Queued) × Asking requests.old clients.old.pairs tickets.old.pairs es × (found key es ≡ Some x) }
    ensures value { result ≡ entry requests.old key }
    ensures asking { (es : List (Seat Queued)) (x : Queued) → Asking requests.old clients.old.pairs tickets.old.pairs es → found key es ≡ Some x → Asking requests.new clients.new.pairs tickets.new.pairs (take_out seat_key key es) }
    ensures room { OnSome result (spare requests.new ≡ spare requests.old + 1) }
    ensures clients_room { clients.old.spare ≤ clients.new.spare }
    ensures tickets_room { tickets.old.spare ≤ tickets.new.spare }
    ensures cost { steps.new ≤ steps.old + 9 }
{
    let node = take_node(requests, key, steps)?;
    origin_back(
        clients,
        tickets,
        node.value.request.origin,
        node.origin,
        key,
        steps,
    );
    Some(node)
}

/// Puts a request last, behind the last of all and the last of its service.
pub fn request_in<L: Ledger>(
    requests: &mut Rows<Node<Queued>>,
    clients: &mut Order,
    tickets: &mut Order,
    value: Queued,
    all: Option<usize>,
    service: Option<usize>,
    steps: &mut Steps<L>,
) -> usize
    requires stands { (es : List (Seat Queued)) × Asking requests.old clients.old.pairs tickets.old.pairs es }
    requires rows_room { 0 < spare requests.old }
    requires clients_room { 0 < clients.old.spare }
    requires tickets_room { 0 < tickets.old.spare }
    ensures free { (es : List (Seat Queued)) → Asking requests.old clients.old.pairs tickets.old.pairs es → has_key seat_key result es ≡ false }
    ensures asking { (es : List (Seat Queued)) → Asking requests.old clients.old.pairs tickets.old.pairs es → all ≡ last_from seat_key None es → service ≡ last_from seat_key None (of_desk value.desk es) → Asking requests.new clients.new.pairs tickets.new.pairs (es ++ record { key = result; value = value } ∷ []) }
    ensures room { spare requests.old ≤ spare requests.new + 1 }
    ensures clients_spare { clients.old.spare ≤ clients.new.spare + 1 }
    ensures tickets_spare { tickets.old.spare ≤ tickets.new.spare + 1 }
    ensures cost { steps.new ≤ steps.old + 8 }
{
    let origin = value.request.origin;
    let last = last_of(clients, tickets, origin, steps);
    let node = Node {
        value,
        all: Link {
            prev: all,
            next: None,
        },
        service: Link {
            prev: service,
            next: None,
        },
        origin: Link {
            prev: last,
            next: None,
        },
    };
    let key = put_node(requests, node, steps);
    origin_on(clients, tickets, origin, last, key, steps);
    key
}
