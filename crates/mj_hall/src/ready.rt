ghost use Rattle.std.specs.Prelude.{◌≡◌, ◌+◌, ◌≤◌, ◌<◌, ◌∷◌, ℕ, List, None, Some, is_some, true, false};
ghost use Rattle.std.specs.Option.{option_map};
ghost use Rattle.mj_counted.specs.Rows.{entry};
ghost use Rattle.mj_chain.specs.Nodes.{RowsAre};
ghost use Rattle.mj_chain.specs.Seats.{Seat, are_distinct, seat_key};
ghost use Rattle.mj_hall.specs.Asking.{of_desk, queued_classes};
ghost use Rattle.mj_hall.specs.Desks.{desk_of};
ghost use Rattle.mj_hall.specs.Serving.{workers_at};
ghost use Rattle.mj_hall.specs.Ready.{ReadyBut, pair_in};

use crate::kept::{Queued, Worker};
use mj_chain::{Desk, Node};
use mj_counted::{Order, Rows, Steps};
use std::sync::ledger::Ledger;

/// The label of the first request at this desk, where a worker waits there too.
fn label_of<L: Ledger>(
    desks: &Rows<Desk>,
    requests: &Rows<Node<Queued>>,
    key: usize,
    steps: &mut Steps<L>,
) -> Option<u64>
    ensures label { (es : List (Seat Queued)) (ws : List (Seat Worker)) → are_distinct seat_key es ≡ true → RowsAre queued_classes requests.now es → entry desks.now key ≡ Some (desk_of key es ws) → pair_in es ws key ≡ option_map (λ label. (label, key)) result }
    ensures cost { steps.new ≤ steps.old + 2 }
{
    let desk = desks.get(key, steps)?;
    let _waiting = desk.waiting.first?;
    let row = desk.requests.first?;
    match requests.get(row, steps) {
        Some(node) => Some(node.value.label),
        None => None,
    }
}

/// The first request at this desk and the first worker that waits there.
pub fn firsts_of<L: Ledger>(
    desks: &Rows<Desk>,
    key: usize,
    steps: &mut Steps<L>,
) -> Option<(usize, usize)>
    ensures firsts { (es later : List (Seat Queued)) (ws others : List (Seat Worker)) (e : Seat Queued) (w : Seat Worker) → entry desks.now key ≡ Some (desk_of key es ws) → of_desk key es ≡ e ∷ later → workers_at false key ws ≡ w ∷ others → result ≡ Some (e.key, w.key) }
    ensures cost { steps.new ≡ steps.old + 1 }
{
    match desks.get(key, steps) {
        Some(desk) => match (desk.requests.first, desk.waiting.first) {
            (Some(request), Some(worker)) => Some((request, worker)),
            _ => None,
        },
        None => None,
    }
}

/// Hides this desk from the order of pairs.
pub fn unmark<L: Ledger>(
    pairs: &mut Order,
    desks: &Rows<Desk>,
    requests: &Rows<Node<Queued>>,
    key: usize,
    steps: &mut Steps<L>,
)
    ensures ready { (es : List (Seat Queued)) (ws : List (Seat Worker)) → are_distinct seat_key es ≡ true → RowsAre queued_classes requests.now es → entry desks.now key ≡ Some (desk_of key es ws) → ReadyBut None pairs.old.pairs es ws → ReadyBut (Some key) pairs.new.pairs es ws }
    ensures room { pairs.old.spare ≤ pairs.new.spare }
    ensures back { (es : List (Seat Queued)) (ws : List (Seat Worker)) → are_distinct seat_key es ≡ true → RowsAre queued_classes requests.now es → entry desks.now key ≡ Some (desk_of key es ws) → ReadyBut None pairs.old.pairs es ws → is_some (pair_in es ws key) ≡ true → 0 < pairs.new.spare }
    ensures cost { steps.new ≤ steps.old + 3 }
{
    if let Some(label) = label_of(desks, requests, key, steps) {
        pairs.remove((label, key), steps);
    }
}

/// Shows this desk in the order of pairs, where it has one.
pub fn mark<L: Ledger>(
    pairs: &mut Order,
    desks: &Rows<Desk>,
    requests: &Rows<Node<Queued>>,
    key: usize,
    steps: &mut Steps<L>,
)
    requires ready { (es : List (Seat Queued)) × (ws : List (Seat Worker)) × ReadyBut (Some key) pairs.old.pairs es ws }
    requires room { 0 < pairs.old.spare }
    ensures ready { (es : List (Seat Queued)) (ws : List (Seat Worker)) → are_distinct seat_key es ≡ true → RowsAre queued_classes requests.now es → entry desks.now key ≡ Some (desk_of key es ws) → ReadyBut (Some key) pairs.old.pairs es ws → ReadyBut None pairs.new.pairs es ws }
    ensures room { pairs.old.spare ≤ pairs.new.spare + 1 }
    ensures cost { steps.new ≤ steps.old + 3 }
{
    if let Some(label) = label_of(desks, requests, key, steps) {
        pairs.insert((label, key), steps).unwrap();
    }
}

/// Shows this desk again, whose pair was there before if it has one.
pub fn mark_again<L: Ledger>(
    pairs: &mut Order,
    desks: &Rows<Desk>,
    requests: &Rows<Node<Queued>>,
    key: usize,
    steps: &mut Steps<L>,
)
    requires stands { (es : List (Seat Queued)) × (ws : List (Seat Worker)) × (are_distinct seat_key es ≡ true) × RowsAre queued_classes requests.now es × (entry desks.now key ≡ Some (desk_of key es ws)) × ReadyBut (Some key) pairs.old.pairs es ws × (is_some (pair_in es ws key) ≡ true → 0 < pairs.old.spare) }
    ensures ready { (es : List (Seat Queued)) (ws : List (Seat Worker)) → are_distinct seat_key es ≡ true → RowsAre queued_classes requests.now es → entry desks.now key ≡ Some (desk_of key es ws) → ReadyBut (Some key) pairs.old.pairs es ws → ReadyBut None pairs.new.pairs es ws }
    ensures room { pairs.old.spare ≤ pairs.new.spare + 1 }
    ensures cost { steps.new ≤ steps.old + 3 }
{
    if let Some(label) = label_of(desks, requests, key, steps) {
        pairs.insert((label, key), steps).unwrap();
    }
}
