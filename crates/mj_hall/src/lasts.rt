ghost use Rattle.std.specs.Prelude.{◌≡◌, ◌+◌, ◌≤◌, ◌<◌, ◌==◌, ◌&&◌, not, ℕ, true, if◌then◌else◌};
ghost use Rattle.mj_counted.specs.Pairs.{has_pair};
ghost use Rattle.mj_chain.specs.Seats.{is_key, is_no_key};

use mj_chain::Link;
use mj_counted::{Order, Steps};
use std::sync::ledger::Ledger;

/// A row with this link leaves the chain of this number: where it was the last, the one in front of it is.
pub fn step_back<L: Ledger>(
    order: &mut Order,
    number: u64,
    gone: Link,
    key: usize,
    steps: &mut Steps<L>,
)
    requires last { is_no_key gone.next ≡ true → (j : ℕ) → has_pair (number, j) order.old.pairs ≡ (key == j) }
    ensures changed { (p : ℕ × ℕ) → has_pair p order.new.pairs ≡ (if (number == p.0) && is_no_key gone.next then is_key p.1 gone.prev else has_pair p order.old.pairs) }
    ensures room { order.old.spare ≤ order.new.spare }
    ensures cost { steps.new ≤ steps.old + 2 }
{
    if gone.next.is_some() {
        return;
    }
    order.remove((number, key), steps);
    if let Some(prev) = gone.prev {
        order.insert((number, prev), steps).unwrap();
    }
}

/// Takes out the last row of this number.
fn drop_last<L: Ledger>(order: &mut Order, number: u64, last: Option<usize>, steps: &mut Steps<L>)
    requires last { (j : ℕ) → has_pair (number, j) order.old.pairs ≡ is_key j last }
    ensures changed { (p : ℕ × ℕ) → has_pair p order.new.pairs ≡ (not (p.0 == number) && has_pair p order.old.pairs) }
    ensures room { order.old.spare ≤ order.new.spare }
    ensures cost { steps.new ≤ steps.old + 1 }
{
    if let Some(key) = last {
        order.remove((number, key), steps);
    }
}

/// A row comes last into the chain of this number, behind `last`.
pub fn step_on<L: Ledger>(
    order: &mut Order,
    number: u64,
    last: Option<usize>,
    key: usize,
    steps: &mut Steps<L>,
)
    requires last { (j : ℕ) → has_pair (number, j) order.old.pairs ≡ is_key j last }
    requires room { 0 < order.old.spare }
    ensures changed { (p : ℕ × ℕ) → has_pair p order.new.pairs ≡ (if number == p.0 then key == p.1 else has_pair p order.old.pairs) }
    ensures room { order.old.spare ≤ order.new.spare + 1 }
    ensures cost { steps.new ≤ steps.old + 2 }
{
    drop_last(order, number, last, steps);
    order.insert((number, key), steps).unwrap();
}
