ghost use Rattle.std.specs.Prelude.{◌≡◌, ◌+◌, ◌≤◌, ℕ, List, IfSome, IfNone, None, Some, filter, true, false};
ghost use Rattle.mj_counted.specs.Pairs.{has_pair};
ghost use Rattle.mj_chain.specs.Seats.{Seat, found, seat_key, take_out};
ghost use Rattle.mj_hall.specs.Asking.{Asking};
ghost use Rattle.mj_hall.specs.Crew.{Queue};
ghost use Rattle.mj_hall.specs.Desks.{PeopledBut};
ghost use Rattle.mj_hall.specs.Floor.{requests_of};
ghost use Rattle.mj_hall.specs.Whose.{stays};

use crate::asking::last_of;
use crate::counts::count_out;
use crate::desks::shut;
use crate::floor::request_leaves;
use crate::kept::{Queued, Worker};
use crate::ready::{mark_again, unmark};
use mj_chain::{Desk, Node};
use mj_counted::{Index, Order, Rows, Steps};
use mj_queue::Origin;
use std::sync::ledger::Ledger;

/// Whose requests leave: a client's by its connection's number, a ticket's by its number, or those of all tickets.
#[derive(Clone, Copy, Debug, PartialEq, Eq)]
pub enum Whose {
    Client(u64),
    Ticket(u64),
    Tickets,
}

/// A request that is to leave.
pub fn last_whose<L: Ledger>(
    clients: &Order,
    tickets: &Order,
    whose: Whose,
    steps: &mut Steps<L>,
) -> Option<usize>
    ensures some { IfSome result (λ key. (requests : Rows (Node Queued)) (es : List (Seat Queued)) → Asking requests clients.now.pairs tickets.now.pairs es → (x : Queued) × (found key es ≡ Some x) × (stays whose x.request ≡ false)) }
    ensures none { IfNone result ((requests : Rows (Node Queued)) (es : List (Seat Queued)) → Asking requests clients.now.pairs tickets.now.pairs es → filter (stays whose) (requests_of es) ≡ requests_of es) }
    ensures cost { steps.new ≤ steps.old + 2 }
{
    match whose {
        Whose::Client(number) => last_of(clients, tickets, Origin::Client(number), steps),
        Whose::Ticket(number) => last_of(clients, tickets, Origin::Ticket(number), steps),
        Whose::Tickets => some_key(tickets, steps),
    }
}

/// The key of the first pair.
fn some_key<L: Ledger>(order: &Order, steps: &mut Steps<L>) -> Option<usize>
    ensures some { IfSome result (λ key. (number : ℕ) × (has_pair (number, key) order.now.pairs ≡ true)) }
    ensures none { IfNone result ((pair : ℕ × ℕ) → has_pair pair order.now.pairs ≡ false) }
    ensures cost { steps.new ≡ steps.old + 1 }
{
    match order.get(0, steps) {
        Some(pair) => Some(pair.1),
        None => None,
    }
}

/// The desk of the request of this key.
fn desk_of_request<L: Ledger>(
    requests: &Rows<Node<Queued>>,
    key: usize,
    steps: &mut Steps<L>,
) -> Option<usize>
    ensures value { (clients : List (ℕ × ℕ)) (tickets : List (ℕ × ℕ)) (es : List (Seat Queued)) (x : Queued) → Asking requests.now clients tickets es → found key es ≡ Some x → result ≡ Some x.desk }
    ensures cost { steps.new ≡ steps.old + 1 }
{
    match requests.get(key, steps) {
        Some(node) => Some(node.value.desk),
        None => None,
    }
}

/// The request of this key leaves, and its desk is shut where nobody asks there any more or serves.
pub fn request_goes<L: Ledger>(
    requests: &mut Rows<Node<Queued>>,
    clients: &mut Order,
    tickets: &mut Order,
    desks: &mut Rows<Desk>,
    names: &mut Index,
    pairs: &mut Order,
    first: &mut usize,
    last: &mut usize,
    count: &mut usize,
    queued: &mut u64,
    weight: &mut u64,
    key: usize,
    steps: &mut Steps<L>,
)
    requires stands { (es : List (Seat Queued)) × (ws : List (Seat Worker)) × (x : Queued) × Queue requests.old clients.old.pairs tickets.old.pairs desks.old names.old pairs.old.pairs first.old last.old count.old queued.old weight.old es ws × (found key es ≡ Some x) }
    ensures queue { (es : List (Seat Queued)) (ws : List (Seat Worker)) (x : Queued) → Queue requests.old clients.old.pairs tickets.old.pairs desks.old names.old pairs.old.pairs first.old last.old count.old queued.old weight.old es ws → found key es ≡ Some x → Queue requests.new clients.new.pairs tickets.new.pairs desks.new names.new pairs.new.pairs first.new last.new count.new queued.new weight.new (take_out seat_key key es) ws }
    ensures peopled { (es : List (Seat Queued)) (ws : List (Seat Worker)) (x : Queued) → Queue requests.old clients.old.pairs tickets.old.pairs desks.old names.old pairs.old.pairs first.old last.old count.old queued.old weight.old es ws → found key es ≡ Some x → PeopledBut None names.old es ws → PeopledBut None names.new (take_out seat_key key es) ws }
    ensures cost { steps.new ≤ steps.old + 20 }
{
    let desk = desk_of_request(requests, key, steps).unwrap();
    unmark(pairs, desks, requests, desk, steps);
    let gone = request_leaves(
        requests, clients, tickets, desks, first, last, count, key, steps,
    )
    .unwrap();
    mark_again(pairs, desks, requests, desk, steps);
    count_out(queued, weight, &gone.request);
    shut(desks, names, &gone.request.service, desk, steps);
}
