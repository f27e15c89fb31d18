ghost use Rattle.std.specs.Prelude.{◌≡◌, ◌+◌, ◌≤◌, ◌<◌, ◌++◌, ◌∷◌, [], ℕ, List, None, Some, OnSome, IfSome, IfNone, true, false};
ghost use Rattle.mj_counted.specs.Rows.{entry, spare};
ghost use Rattle.mj_chain.specs.Seats.{Seat, found, has_key, last_from, seat_key, take_out};
ghost use Rattle.mj_hall.specs.Serving.{NoneOf, Serving, is_of_conn, workers_at, workers_of};

use crate::kept::Worker;
use mj_chain::{Link, Node, put_node, take_node};
use mj_counted::{Order, Rows, Steps, key_for};
use std::sync::ledger::Ledger;

/// The worker of this connection.
pub fn worker_of<L: Ledger>(conns: &Order, number: u64, steps: &mut Steps<L>) -> Option<usize>
    ensures some { IfSome result (λ key. (workers : Rows (Node Worker)) (ws : List (Seat Worker)) → Serving workers conns.now.pairs ws → is_of_conn number (found key ws) ≡ true) }
    ensures none { IfNone result ((workers : Rows (Node Worker)) (ws : List (Seat Worker)) → Serving workers conns.now.pairs ws → NoneOf number ws) }
    ensures cost { steps.new ≡ steps.old + 2 }
{
    key_for(conns, number, steps)
}

/// Takes out the worker of this key, which is there.
pub fn worker_out<L: Ledger>(
    workers: &mut Rows<Node<Worker>>,
    conns: &mut Order,
    key: usize,
    steps: &mut Steps<L>,
) -> Option<Node<Worker>>
    ensures value { result ≡ entry workers.old key }
    ensures serving { (ws : List (Seat Worker)) (w : Worker) → Serving workers.old conns.old.pairs ws → found key ws ≡ Some w → Serving workers.new conns.new.pairs (take_out seat_key key ws) }
    ensures none { (ws : List (Seat Worker)) (w : Worker) → Serving workers.old conns.old.pairs ws → found key ws ≡ Some w → NoneOf w.waiter.worker (take_out seat_key key ws) }
    ensures room { OnSome result (spare workers.new ≡ spare workers.old + 1) }
    ensures conns_room { (ws : List (Seat Worker)) (w : Worker) → Serving workers.old conns.old.pairs ws → found key ws ≡ Some w → conns.old.spare + 1 ≤ conns.new.spare }
    ensures cost { steps.new ≤ steps.old + 8 }
{
    let node = take_node(workers, key, steps)?;
    conns.remove((node.value.waiter.worker, key), steps);
    Some(node)
}

/// Puts a worker last, behind the last of all of its kind and the last at its desk. None has its connection.
pub fn worker_in<L: Ledger>(
    workers: &mut Rows<Node<Worker>>,
    conns: &mut Order,
    value: Worker,
    all: Option<usize>,
    service: Option<usize>,
    steps: &mut Steps<L>,
) -> usize
    requires stands { (ws : List (Seat Worker)) × Serving workers.old conns.old.pairs ws × NoneOf value.waiter.worker ws }
    requires rows_room { 0 < spare workers.old }
    requires conns_room { 0 < conns.old.spare }
    ensures free { (ws : List (Seat Worker)) → Serving workers.old conns.old.pairs ws → has_key seat_key result ws ≡ false }
    ensures serving { (ws : List (Seat Worker)) → Serving workers.old conns.old.pairs ws → NoneOf value.waiter.worker ws → all ≡ last_from seat_key None (workers_of value.busy ws) → service ≡ last_from seat_key None (workers_at value.busy value.desk ws) → Serving workers.new conns.new.pairs (ws ++ record { key = result; value = value } ∷ []) }
    ensures room { spare workers.old ≤ spare workers.new + 1 }
    ensures conns_spare { conns.old.spare ≤ conns.new.spare + 1 }
    ensures cost { steps.new ≤ steps.old + 5 }
{
    let number = value.waiter.worker;
    let node = Node {
        value,
        all: Link {
            prev: all,
            next: None,
        },
        service: Link {
            prev: service,
            next: None,
        },
        origin: Link {
            prev: None,
            next: None,
        },
    };
    let key = put_node(workers, node, steps);
    conns.insert((number, key), steps).unwrap();
    key
}
