ghost use Rattle.std.specs.Prelude.{◌≡◌, ◌+◌, ◌^◌, ◌≤◌, ◌<◌, ◌++◌, ◌∷◌, [], ℕ, List, None, Some, OnSome, not, true, false};
ghost use Rattle.mj_counted.specs.Names.{key_of};
ghost use Rattle.mj_counted.specs.Rows.{entry, spare};
ghost use Rattle.mj_chain.specs.Desks.{line_of};
ghost use Rattle.mj_chain.specs.Seats.{Seat, found, has_key, last_from, seat_key, take_out};
ghost use Rattle.mj_hall.specs.Desks;
ghost use Rattle.mj_hall.specs.Desks.{Desks};
ghost use Rattle.mj_hall.specs.Ends.{EndsAre};
ghost use Rattle.mj_hall.specs.Serving.{NoneOf, Serving, workers_at, workers_of};

use crate::ends_kept::{ends, ends_with, ends_without};
use crate::kept::{Queued, Worker};
use crate::serving::{worker_in, worker_out};
use mj_chain::{Desk, Line, Node, join, leave};
use mj_counted::{Index, Order, Rows, Steps};
use std::sync::ledger::Ledger;

fn worker_line(busy: bool) -> Line
    ensures { result ≡ Desks.worker_line busy }
{
    if busy { Line::Busy } else { Line::Waiting }
}

/// The last worker of a desk's line.
fn last_served<L: Ledger>(
    desks: &Rows<Desk>,
    key: usize,
    busy: bool,
    steps: &mut Steps<L>,
) -> Option<usize>
    ensures last { (names : Index) (es : List (Seat Queued)) (ws : List (Seat Worker)) (q : List ℕ) → Desks desks.now names es ws → key_of names q ≡ Some key → result ≡ last_from seat_key None (workers_at busy key ws) }
    ensures cost { steps.new ≡ steps.old + 1 }
{
    match desks.get(key, steps) {
        Some(desk) if busy => desk.busy.last,
        Some(desk) => desk.waiting.last,
        None => None,
    }
}

/// A worker leaves the rows, its desk and the list of those of its kind, whose ends are given.
pub fn worker_leaves<L: Ledger>(
    workers: &mut Rows<Node<Worker>>,
    conns: &mut Order,
    desks: &mut Rows<Desk>,
    first: &mut usize,
    last: &mut usize,
    count: &mut usize,
    key: usize,
    steps: &mut Steps<L>,
) -> Option<Worker>
    requires stands { (ws : List (Seat Worker)) × (w : Worker) × Serving workers.old conns.old.pairs ws × (found key ws ≡ Some w) × EndsAre first.old last.old count.old (workers_of w.busy ws) }
    ensures value { (ws : List (Seat Worker)) (w : Worker) → Serving workers.old conns.old.pairs ws → found key ws ≡ Some w → result ≡ Some w }
    ensures serving { (ws : List (Seat Worker)) (w : Worker) → Serving workers.old conns.old.pairs ws → found key ws ≡ Some w → Serving workers.new conns.new.pairs (take_out seat_key key ws) }
    ensures none { (ws : List (Seat Worker)) (w : Worker) → Serving workers.old conns.old.pairs ws → found key ws ≡ Some w → NoneOf w.waiter.worker (take_out seat_key key ws) }
    ensures desks { (names : Index) (es : List (Seat Queued)) (ws : List (Seat Worker)) (w : Worker) → Serving workers.old conns.old.pairs ws → found key ws ≡ Some w → Desks desks.old names es ws → Desks desks.new names es (take_out seat_key key ws) }
    ensures ends { (ws : List (Seat Worker)) (w : Worker) → Serving workers.old conns.old.pairs ws → found key ws ≡ Some w → EndsAre first.old last.old count.old (workers_of w.busy ws) → EndsAre first.new last.new count.new (workers_of w.busy (take_out seat_key key ws)) }
    ensures others { (ws : List (Seat Worker)) (w : Worker) → Serving workers.old conns.old.pairs ws → found key ws ≡ Some w → workers_of (not w.busy) (take_out seat_key key ws) ≡ workers_of (not w.busy) ws }
    ensures fewer { count.new ≤ count.old }
    ensures room { OnSome result (spare workers.new ≡ spare workers.old + 1) }
    ensures conns_room { (ws : List (Seat Worker)) (w : Worker) → Serving workers.old conns.old.pairs ws → found key ws ≡ Some w → conns.old.spare + 1 ≤ conns.new.spare }
    ensures cost { steps.new ≤ steps.old + 9 }
{
    let node = worker_out(workers, conns, key, steps)?;
    ends_without(first, last, count, node.all);
    leave(
        desks,
        node.value.desk,
        worker_line(node.value.busy),
        node.service,
        steps,
    );
    Some(node.value)
}

/// A worker comes into the rows, to its desk and to the list of those of its kind, whose ends are given.
pub fn worker_comes<L: Ledger>(
    workers: &mut Rows<Node<Worker>>,
    conns: &mut Order,
    desks: &mut Rows<Desk>,
    first: &mut usize,
    last: &mut usize,
    count: &mut usize,
    value: Worker,
    steps: &mut Steps<L>,
) -> usize
    requires stands { (names : Index) × (es : List (Seat Queued)) × (ws : List (Seat Worker)) × Serving workers.old conns.old.pairs ws × NoneOf value.waiter.worker ws × Desks desks.old names es ws × EndsAre first.old last.old count.old (workers_of value.busy ws) × (key_of names value.waiter.service ≡ Some value.desk) }
    requires fits { count.old + 1 < 2 ^ 64 }
    requires rows_room { 0 < spare workers.old }
    requires conns_room { 0 < conns.old.spare }
    ensures free { (ws : List (Seat Worker)) → Serving workers.old conns.old.pairs ws → has_key seat_key result ws ≡ false }
    ensures serving { (names : Index) (es : List (Seat Queued)) (ws : List (Seat Worker)) → Serving workers.old conns.old.pairs ws → NoneOf value.waiter.worker ws → Desks desks.old names es ws → EndsAre first.old last.old count.old (workers_of value.busy ws) → key_of names value.waiter.service ≡ Some value.desk → Serving workers.new conns.new.pairs (ws ++ record { key = result; value = value } ∷ []) }
    ensures desks { (names : Index) (es : List (Seat Queued)) (ws : List (Seat Worker)) → Serving workers.old conns.old.pairs ws → Desks desks.old names es ws → key_of names value.waiter.service ≡ Some value.desk → Desks desks.new names es (ws ++ record { key = result; value = value } ∷ []) }
    ensures ends { (ws : List (Seat Worker)) → EndsAre first.old last.old count.old (workers_of value.busy ws) → EndsAre first.new last.new count.new (workers_of value.busy (ws ++ record { key = result; value = value } ∷ [])) }
    ensures others { (ws : List (Seat Worker)) → workers_of (not value.busy) (ws ++ record { key = result; value = value } ∷ []) ≡ workers_of (not value.busy) ws }
    ensures more { count.new ≡ count.old + 1 }
    ensures room { spare workers.old ≤ spare workers.new + 1 }
    ensures conns_spare { conns.old.spare ≤ conns.new.spare + 1 }
    ensures cost { steps.new ≤ steps.old + 7 }
{
    let desk = value.desk;
    let busy = value.busy;
    let all = ends(*first, *last, *count).last;
    let service = last_served(desks, desk, busy, steps);
    let key = worker_in(workers, conns, value, all, service, steps);
    ends_with(first, last, count, key);
    join(desks, desk, worker_line(busy), key, steps);
    key
}
