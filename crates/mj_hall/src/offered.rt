ghost use Rattle.std.specs.Prelude.{◌≡◌, ◌+◌, ℕ, List, Some};
ghost use Rattle.mj_chain.specs.Seats.{Seat, found};
ghost use Rattle.mj_hall.specs.Asking.{Asking};
ghost use Rattle.mj_hall.specs.Serving.{Serving};

use crate::kept::{Queued, Worker};
use mj_chain::Node;
use mj_counted::{Rows, Steps};
use mj_queue::{Origin, Waiter};
use std::sync::ledger::Ledger;

/// Who asks by the request of this key.
pub fn origin_of<L: Ledger>(
    requests: &Rows<Node<Queued>>,
    key: usize,
    steps: &mut Steps<L>,
) -> Option<Origin>
    ensures value { (clients tickets : List (ℕ × ℕ)) (es : List (Seat Queued)) (x : Queued) → Asking requests.now clients tickets es → found key es ≡ Some x → result ≡ Some x.request.origin }
    ensures cost { steps.new ≡ steps.old + 1 }
{
    match requests.get(key, steps) {
        Some(node) => Some(node.value.request.origin),
        None => None,
    }
}

/// The worker of this key, with its service.
pub fn waiter_of<L: Ledger>(
    workers: &Rows<Node<Worker>>,
    key: usize,
    steps: &mut Steps<L>,
) -> Option<Waiter>
    ensures value { (conns : List (ℕ × ℕ)) (ws : List (Seat Worker)) (w : Worker) → Serving workers.now conns ws → found key ws ≡ Some w → result ≡ Some w.waiter }
    ensures cost { steps.new ≡ steps.old + 1 }
{
    match workers.get(key, steps) {
        Some(node) => Some(Waiter {
            worker: node.value.waiter.worker,
            service: node.value.waiter.service.copy(),
        }),
        None => None,
    }
}
