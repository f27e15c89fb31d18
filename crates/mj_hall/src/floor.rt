ghost use Rattle.std.specs.Prelude.{◌≡◌, ◌+◌, ◌^◌, ◌≤◌, ◌<◌, ◌++◌, ◌∷◌, [], ℕ, List, None, Some, OnSome, true, false};
ghost use Rattle.mj_counted.specs.Names.{key_of};
ghost use Rattle.mj_counted.specs.Rows.{entry, spare};
ghost use Rattle.mj_chain.specs.Seats.{Seat, found, has_key, last_from, seat_key, take_out};
ghost use Rattle.mj_hall.specs.Asking.{Asking, of_desk};
ghost use Rattle.mj_hall.specs.Desks.{Desks};
ghost use Rattle.mj_hall.specs.Ends.{EndsAre};

use crate::asking::{request_in, request_out};
use crate::ends_kept::{ends, ends_with, ends_without};
use crate::kept::{Queued, Worker};
use mj_chain::{Desk, Line, Node, join, leave};
use mj_counted::{Index, Order, Rows, Steps};
use std::sync::ledger::Ledger;

/// The last request of a desk's line.
fn last_asked<L: Ledger>(desks: &Rows<Desk>, key: usize, steps: &mut Steps<L>) -> Option<usize>
    ensures last { (names : Index) (es : List (Seat Queued)) (ws : List (Seat Worker)) (q : List ℕ) → Desks desks.now names es ws → key_of names q ≡ Some key → result ≡ last_from seat_key None (of_desk key es) }
    ensures cost { steps.new ≡ steps.old + 1 }
{
    match desks.get(key, steps) {
        Some(desk) => desk.requests.last,
        None => None,
    }
}

/// A request leaves the rows, its desk and the list of all.
pub fn request_leaves<L: Ledger>(
    requests: &mut Rows<Node<Queued>>,
    clients: &mut Order,
    tickets: &mut Order,
    desks: &mut Rows<Desk>,
    first: &mut usize,
    last: &mut usize,
    count: &mut usize,
    key: usize,
    steps: &mut Steps<L>,
) -> Option<Queued>
    requires stands { (es : List (Seat Queued)) × (x : Queued) × Asking requests.old clients.old.pairs tickets.old.pairs es × (found key es ≡ Some x) × EndsAre first.old last.old count.old es }
    ensures value { (es : List (Seat Queued)) (x : Queued) → Asking requests.old clients.old.pairs tickets.old.pairs es → found key es ≡ Some x → result ≡ Some x }
    ensures asking { (es : List (Seat Queued)) (x : Queued) → Asking requests.old clients.old.pairs tickets.old.pairs es → found key es ≡ Some x → Asking requests.new clients.new.pairs tickets.new.pairs (take_out seat_key key es) }
    ensures desks { (names : Index) (es : List (Seat Queued)) (ws : List (Seat Worker)) (x : Queued) → Asking requests.old clients.old.pairs tickets.old.pairs es → found key es ≡ Some x → Desks desks.old names es ws → Desks desks.new names (take_out seat_key key es) ws }
    ensures ends { (es : List (Seat Queued)) (x : Queued) → Asking requests.old clients.old.pairs tickets.old.pairs es → found key es ≡ Some x → EndsAre first.old last.old count.old es → EndsAre first.new last.new count.new (take_out seat_key key es) }
    ensures room { OnSome result (spare requests.new ≡ spare requests.old + 1) }
    ensures clients_room { clients.old.spare ≤ clients.new.spare }
    ensures tickets_room { tickets.old.spare ≤ tickets.new.spare }
    ensures cost { steps.new ≤ steps.old + 10 }
{
    let node = request_out(requests, clients, tickets, key, steps)?;
    ends_without(first, last, count, node.all);
    leave(desks, node.value.desk, Line::Requests, node.service, steps);
    Some(node.value)
}

/// A request comes into the rows, to its desk and to the list of all.
pub fn request_comes<L: Ledger>(
    requests: &mut Rows<Node<Queued>>,
    clients: &mut Order,
    tickets: &mut Order,
    desks: &mut Rows<Desk>,
    first: &mut usize,
    last: &mut usize,
    count: &mut usize,
    value: Queued,
    steps: &mut Steps<L>,
) -> usize
    requires stands { (names : Index) × (es : List (Seat Queued)) × (ws : List (Seat Worker)) × Asking requests.old clients.old.pairs tickets.old.pairs es × Desks desks.old names es ws × EndsAre first.old last.old count.old es × (key_of names value.request.service ≡ Some value.desk) }
    requires fits { count.old + 1 < 2 ^ 64 }
    requires rows_room { 0 < spare requests.old }
    requires clients_room { 0 < clients.old.spare }
    requires tickets_room { 0 < tickets.old.spare }
    ensures free { (es : List (Seat Queued)) → Asking requests.old clients.old.pairs tickets.old.pairs es → has_key seat_key result es ≡ false }
    ensures asking { (names : Index) (es : List (Seat Queued)) (ws : List (Seat Worker)) → Asking requests.old clients.old.pairs tickets.old.pairs es → Desks desks.old names es ws → EndsAre first.old last.old count.old es → key_of names value.request.service ≡ Some value.desk → Asking requests.new clients.new.pairs tickets.new.pairs (es ++ record { key = result; value = value } ∷ []) }
    ensures desks { (names : Index) (es : List (Seat Queued)) (ws : List (Seat Worker)) → Asking requests.old clients.old.pairs tickets.old.pairs es → Desks desks.old names es ws → key_of names value.request.service ≡ Some value.desk → Desks desks.new names (es ++ record { key = result; value = value } ∷ []) ws }
    ensures ends { (es : List (Seat Queued)) → EndsAre first.old last.old count.old es → EndsAre first.new last.new count.new (es ++ record { key = result; value = value } ∷ []) }
    ensures room { spare requests.old ≤ spare requests.new + 1 }
    ensures clients_spare { clients.old.spare ≤ clients.new.spare + 1 }
    ensures tickets_spare { tickets.old.spare ≤ tickets.new.spare + 1 }
    ensures cost { steps.new ≤ steps.old + 10 }
{
    let desk = value.desk;
    let all = ends(*first, *last, *count).last;
    let service = last_asked(desks, desk, steps);
    let key = request_in(requests, clients, tickets, value, all, service, steps);
    ends_with(first, last, count, key);
    join(desks, desk, Line::Requests, key, steps);
    key
}
