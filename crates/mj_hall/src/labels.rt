ghost use Rattle.std.specs.Prelude.{◌≡◌, ◌+◌, ◌≤◌, ◌<◌, ◌==◌, ◌^◌, ℕ, List, Some, option_map, if◌then◌else◌};
ghost use Rattle.mj_counted.specs.Rows.{entries, entry};
ghost use Rattle.mj_chain.specs.Nodes.{RowsAre};
ghost use Rattle.mj_chain.specs.Seats.{Seat, found, next_in, seat_key};
ghost use Rattle.mj_hall.specs.Asking.{queued_classes};
ghost use Rattle.mj_hall.specs.Ends.{EndsAre};
ghost use Rattle.mj_hall.specs.Labels.{Marked, node_with, numbered, relabelled};

use crate::kept::{Queued, Worker};
use crate::ready::{mark_again, unmark};
use mj_chain::{Desk, Node};
use mj_counted::{Index, Order, Rows, Steps};
use std::sync::ledger::Ledger;

/// The desk of the request of this key, and the request behind it in the list of all.
fn stop_at<L: Ledger>(
    requests: &Rows<Node<Queued>>,
    key: usize,
    steps: &mut Steps<L>,
) -> Option<(usize, Option<usize>)>
    ensures value { (es : List (Seat Queued)) (x : Queued) → RowsAre queued_classes requests.now es → found key es ≡ Some x → result ≡ Some (x.desk, next_in seat_key key es) }
{
    match requests.get(key, steps) {
        Some(node) => Some((node.value.desk, node.all.next)),
        None => None,
    }
}

fn set_label<L: Ledger>(
    requests: &mut Rows<Node<Queued>>,
    key: usize,
    label: u64,
    steps: &mut Steps<L>,
)
    ensures changed { (k : ℕ) → entry requests.new k ≡ (if k == key then option_map (node_with label) (entry requests.old k) else entry requests.old k) }
    ensures count { entries requests.new ≡ entries requests.old }
{
    if let Some(node) = requests.get_mut(key, steps) {
        node.value.label = label;
    }
}

/// Gives the request of this key this label, and answers which one is behind it.
fn number_one<L: Ledger>(
    requests: &mut Rows<Node<Queued>>,
    pairs: &mut Order,
    desks: &Rows<Desk>,
    key: usize,
    label: u64,
    steps: &mut Steps<L>,
) -> Option<usize>
    requires stands { (names : Index) × (es : List (Seat Queued)) × (ws : List (Seat Worker)) × (x : Queued) × Marked requests.old pairs.old.pairs desks.now names es ws × (found key es ≡ Some x) }
    ensures next { (es : List (Seat Queued)) (x : Queued) → RowsAre queued_classes requests.old es → found key es ≡ Some x → result ≡ next_in seat_key key es }
    ensures marked { (names : Index) (es : List (Seat Queued)) (ws : List (Seat Worker)) (x : Queued) → Marked requests.old pairs.old.pairs desks.now names es ws → found key es ≡ Some x → Marked requests.new pairs.new.pairs desks.now names (relabelled key label es) ws }
    ensures count { entries requests.new ≡ entries requests.old }
{
    let (desk, next) = stop_at(requests, key, steps).unwrap();
    unmark(pairs, desks, requests, desk, steps);
    set_label(requests, key, label, steps);
    mark_again(pairs, desks, requests, desk, steps);
    next
}

/// Numbers all requests anew from 0, in their order.
pub fn number_all<L: Ledger>(
    requests: &mut Rows<Node<Queued>>,
    pairs: &mut Order,
    desks: &Rows<Desk>,
    first: usize,
    last: usize,
    count: usize,
    steps: &mut Steps<L>,
)
    requires stands { (names : Index) × (es : List (Seat Queued)) × (ws : List (Seat Worker)) × Marked requests.old pairs.old.pairs desks.now names es ws × EndsAre first last count es }
    ensures marked { (names : Index) (es : List (Seat Queued)) (ws : List (Seat Worker)) → Marked requests.old pairs.old.pairs desks.now names es ws → EndsAre first last count es → Marked requests.new pairs.new.pairs desks.now names (numbered 0 es) ws }
    ensures count { entries requests.new ≡ entries requests.old }
{
    let mut key = first;
    let mut label = 0;
    while label < count {
        key = number_one(requests, pairs, desks, key, label as u64, steps).unwrap_or(0);
        label += 1;
    }
}
