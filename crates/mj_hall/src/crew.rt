ghost use Rattle.std.specs.Prelude.{◌≡◌, ◌+◌, ◌^◌, ◌≤◌, ◌<◌, ◌++◌, ◌∷◌, [], ℕ, List, None, Some, option_map, IfSome, OnSome, not, true, false};
ghost use Rattle.mj_counted.specs.Names.{key_of};
ghost use Rattle.mj_counted.specs.Rows.{entry, spare};
ghost use Rattle.mj_chain.specs.Seats.{Seat, are_distinct, found, is_key, seat_key, take_out};
ghost use Rattle.mj_hall.specs.Crew.{Crew, without_conn};
ghost use Rattle.mj_hall.specs.Desks.{Desks, PeopledBut, desk_of};
ghost use Rattle.mj_hall.specs.Ends.{EndsAre};
ghost use Rattle.mj_hall.specs.Serving.{NoneOf, Serving, workers_of};

use crate::desks::shut;
use crate::kept::{Queued, Worker};
use crate::ready::{mark, mark_again, unmark};
use crate::serving::worker_of;
use crate::workplace::{worker_comes, worker_leaves};
use mj_base::Name;
use mj_chain::{Desk, Node};
use mj_counted::{Index, Order, Rows, Steps};
use mj_queue::Waiter;
use std::sync::ledger::Ledger;

/// A worker that waits at this desk.
pub fn waiting_worker(number: u64, name: &Name, desk: usize) -> Worker
    ensures { result ≡ record { waiter = record { worker = number; service = name.now }; desk = desk; busy = false } }
{
    Worker {
        waiter: Waiter {
            worker: number,
            service: name.copy(),
        },
        desk,
        busy: false,
    }
}

/// The desk of the worker of this key, and whether it is busy there.
fn post_of<L: Ledger>(
    workers: &Rows<Node<Worker>>,
    key: usize,
    steps: &mut Steps<L>,
) -> Option<(usize, bool)>
    ensures value { (conns : List (ℕ × ℕ)) (ws : List (Seat Worker)) (w : Worker) → Serving workers.now conns ws → found key ws ≡ Some w → result ≡ Some (w.desk, w.busy) }
    ensures cost { steps.new ≡ steps.old + 1 }
{
    match workers.get(key, steps) {
        Some(node) => Some((node.value.desk, node.value.busy)),
        None => None,
    }
}

/// A worker leaves the rows, its desk, and the list of those that are busy or of those that wait.
fn kind_leaves<L: Ledger>(
    workers: &mut Rows<Node<Worker>>,
    conns: &mut Order,
    desks: &mut Rows<Desk>,
    waiting_first: &mut usize,
    waiting_last: &mut usize,
    waiting_count: &mut usize,
    busy_first: &mut usize,
    busy_last: &mut usize,
    busy_count: &mut usize,
    key: usize,
    busy: bool,
    steps: &mut Steps<L>,
) -> Option<Worker>
    requires stands { (ws : List (Seat Worker)) × (w : Worker) × Serving workers.old conns.old.pairs ws × (found key ws ≡ Some w) × (w.busy ≡ busy) × EndsAre waiting_first.old waiting_last.old waiting_count.old (workers_of false ws) × EndsAre busy_first.old busy_last.old busy_count.old (workers_of true ws) }
    ensures value { (ws : List (Seat Worker)) (w : Worker) → Serving workers.old conns.old.pairs ws → found key ws ≡ Some w → result ≡ Some w }
    ensures serving { (ws : List (Seat Worker)) (w : Worker) → Serving workers.old conns.old.pairs ws → found key ws ≡ Some w → Serving workers.new conns.new.pairs (take_out seat_key key ws) }
    ensures desks { (names : Index) (es : List (Seat Queued)) (ws : List (Seat Worker)) (w : Worker) → Serving workers.old conns.old.pairs ws → found key ws ≡ Some w → Desks desks.old names es ws → Desks desks.new names es (take_out seat_key key ws) }
    ensures waiting { (ws : List (Seat Worker)) (w : Worker) → Serving workers.old conns.old.pairs ws → found key ws ≡ Some w → w.busy ≡ busy → EndsAre waiting_first.old waiting_last.old waiting_count.old (workers_of false ws) → EndsAre waiting_first.new waiting_last.new waiting_count.new (workers_of false (take_out seat_key key ws)) }
    ensures busy { (ws : List (Seat Worker)) (w : Worker) → Serving workers.old conns.old.pairs ws → found key ws ≡ Some w → w.busy ≡ busy → EndsAre busy_first.old busy_last.old busy_count.old (workers_of true ws) → EndsAre busy_first.new busy_last.new busy_count.new (workers_of true (take_out seat_key key ws)) }
    ensures fewer { (waiting_count.new ≤ waiting_count.old) × (busy_count.new ≤ busy_count.old) }
    ensures room { OnSome result (spare workers.new ≡ spare workers.old + 1) }
    ensures conns_room { (ws : List (Seat Worker)) (w : Worker) → Serving workers.old conns.old.pairs ws → found key ws ≡ Some w → conns.old.spare + 1 ≤ conns.new.spare }
    ensures cost { steps.new ≤ steps.old + 9 }
{
    if busy {
        return worker_leaves(
            workers, conns, desks, busy_first, busy_last, busy_count, key, steps,
        );
    }
    worker_leaves(
        workers,
        conns,
        desks,
        waiting_first,
        waiting_last,
        waiting_count,
        key,
        steps,
    )
}

/// The worker of this connection leaves, where there is one. Its desk stays open.
pub fn worker_goes<L: Ledger>(
    requests: &Rows<Node<Queued>>,
    workers: &mut Rows<Node<Worker>>,
    conns: &mut Order,
    desks: &mut Rows<Desk>,
    pairs: &mut Order,
    waiting_first: &mut usize,
    waiting_last: &mut usize,
    waiting_count: &mut usize,
    busy_first: &mut usize,
    busy_last: &mut usize,
    busy_count: &mut usize,
    number: u64,
    steps: &mut Steps<L>,
) -> Option<Worker>
    requires stands { (names : Index) × (es : List (Seat Queued)) × (ws : List (Seat Worker)) × Crew requests.now workers.old conns.old.pairs desks.old names pairs.old.pairs waiting_first.old waiting_last.old waiting_count.old busy_first.old busy_last.old busy_count.old es ws }
    ensures crew { (names : Index) (es : List (Seat Queued)) (ws : List (Seat Worker)) → Crew requests.now workers.old conns.old.pairs desks.old names pairs.old.pairs waiting_first.old waiting_last.old waiting_count.old busy_first.old busy_last.old busy_count.old es ws → Crew requests.now workers.new conns.new.pairs desks.new names pairs.new.pairs waiting_first.new waiting_last.new waiting_count.new busy_first.new busy_last.new busy_count.new es (without_conn number ws) }
    ensures named { IfSome result (λ worker. (names : Index) (es : List (Seat Queued)) (ws : List (Seat Worker)) → Serving workers.old conns.old.pairs ws → Desks desks.old names es ws → key_of names worker.waiter.service ≡ Some worker.desk) }
    ensures others { (es : List (Seat Queued)) (ws : List (Seat Worker)) (d : ℕ) → Serving workers.old conns.old.pairs ws → is_key d (option_map (λ worker. worker.desk) result) ≡ false → desk_of d es (without_conn number ws) ≡ desk_of d es ws }
    ensures fewer { (waiting_count.new ≤ waiting_count.old) × (busy_count.new ≤ busy_count.old) }
    ensures room { spare workers.old ≤ spare workers.new }
    ensures conns_room { conns.old.spare ≤ conns.new.spare }
    ensures pairs_room { pairs.old.spare ≤ pairs.new.spare + 1 }
    ensures cost { steps.new ≤ steps.old + 18 }
{
    let key = worker_of(conns, number, steps)?;
    let (desk, busy) = post_of(workers, key, steps).unwrap();
    unmark(pairs, desks, requests, desk, steps);
    let worker = kind_leaves(
        workers,
        conns,
        desks,
        waiting_first,
        waiting_last,
        waiting_count,
        busy_first,
        busy_last,
        busy_count,
        key,
        busy,
        steps,
    )
    .unwrap();
    mark_again(pairs, desks, requests, desk, steps);
    Some(worker)
}

/// A worker, whose connection has none, comes to its desk and waits there.
pub fn worker_waits<L: Ledger>(
    requests: &Rows<Node<Queued>>,
    workers: &mut Rows<Node<Worker>>,
    conns: &mut Order,
    desks: &mut Rows<Desk>,
    pairs: &mut Order,
    first: &mut usize,
    last: &mut usize,
    count: &mut usize,
    value: Worker,
    steps: &mut Steps<L>,
) -> usize
    requires stands { (names : Index) × (busy_first : ℕ) × (busy_last : ℕ) × (busy_count : ℕ) × (es : List (Seat Queued)) × (ws : List (Seat Worker)) × Crew requests.now workers.old conns.old.pairs desks.old names pairs.old.pairs first.old last.old count.old busy_first busy_last busy_count es ws × NoneOf value.waiter.worker ws × (key_of names value.waiter.service ≡ Some value.desk) × (value.busy ≡ false) }
    requires fits { count.old + 1 < 2 ^ 64 }
    requires rows_room { 0 < spare workers.old }
    requires conns_room { 0 < conns.old.spare }
    requires pairs_room { 0 < pairs.old.spare }
    ensures crew { (names : Index) (busy_first busy_last busy_count : ℕ) (es : List (Seat Queued)) (ws : List (Seat Worker)) → Crew requests.now workers.old conns.old.pairs desks.old names pairs.old.pairs first.old last.old count.old busy_first busy_last busy_count es ws → NoneOf value.waiter.worker ws → key_of names value.waiter.service ≡ Some value.desk → value.busy ≡ false → Crew requests.now workers.new conns.new.pairs desks.new names pairs.new.pairs first.new last.new count.new busy_first busy_last busy_count es (ws ++ record { key = result; value = value } ∷ []) }
    ensures count { count.new ≡ count.old + 1 }
    ensures cost { steps.new ≤ steps.old + 13 }
{
    let desk = value.desk;
    unmark(pairs, desks, requests, desk, steps);
    let key = worker_comes(workers, conns, desks, first, last, count, value, steps);
    mark(pairs, desks, requests, desk, steps);
    key
}

/// Shuts the desk of a worker that has left, where nobody asks there or serves.
pub fn shut_after<L: Ledger>(
    desks: &mut Rows<Desk>,
    names: &mut Index,
    gone: Option<Worker>,
    steps: &mut Steps<L>,
)
    requires named { IfSome gone (λ worker. key_of names.old worker.waiter.service ≡ Some worker.desk) }
    ensures desks { (es : List (Seat Queued)) (ws : List (Seat Worker)) → are_distinct seat_key es ≡ true → are_distinct seat_key ws ≡ true → Desks desks.old names.old es ws → Desks desks.new names.new es ws }
    ensures peopled { (es : List (Seat Queued)) (ws : List (Seat Worker)) → Desks desks.old names.old es ws → PeopledBut (option_map (λ worker. worker.desk) gone) names.old es ws → PeopledBut None names.new es ws }
    ensures cost { steps.new ≤ steps.old + 3 }
{
    if let Some(worker) = gone {
        shut(desks, names, &worker.waiter.service, worker.desk, steps);
    }
}
