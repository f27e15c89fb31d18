ghost use Rattle.std.specs.Prelude.{◌≡◌, ◌+◌, ◌^◌, ◌≤◌, ◌<◌, ◌==◌, ℕ, nat_lt, None, Some, is_some, true, false, length, slice_get, if◌then◌else◌};
ghost use Rattle.mj_counted.specs.Pairs.{is_rising};
ghost use Rattle.mj_due.specs.Leases.{AreLeases, deadline_of, due_pairs};

use mj_counted::{Order, Steps, key_for};
use std::sync::ledger::Ledger;

/// Takes the lease of this connection out of both orders, and answers whether it was there.
pub fn take_lease<L: Ledger>(
    by_conn: &mut Order,
    by_deadline: &mut Order,
    conn: u64,
    steps: &mut Steps<L>,
) -> bool
    requires leases { AreLeases by_conn.old.pairs by_deadline.old.pairs }
    ensures value { result ≡ is_some (deadline_of conn by_conn.old.pairs) }
    ensures leases { AreLeases by_conn.new.pairs by_deadline.new.pairs }
    ensures changed { (q : ℕ) → deadline_of q by_conn.new.pairs ≡ (if q == conn then None else deadline_of q by_conn.old.pairs) }
    ensures conn_room { by_conn.old.spare + (if result then 1 else 0) ≤ by_conn.new.spare }
    ensures deadline_room { by_deadline.old.spare + (if result then 1 else 0) ≤ by_deadline.new.spare }
    ensures bound { result ≡ true → by_conn.new.spare < 2 ^ 64 }
    ensures cost { steps.new ≤ steps.old + 4 }
{
    let Some(deadline) = key_for(by_conn, conn, steps) else {
        return false;
    };
    by_conn.remove((conn, deadline), steps);
    by_deadline.remove((deadline as u64, conn as usize), steps);
    true
}

/// Puts the lease of a connection that has none into both orders.
pub fn add_lease<L: Ledger>(
    by_conn: &mut Order,
    by_deadline: &mut Order,
    conn: u64,
    deadline: u64,
    steps: &mut Steps<L>,
)
    requires leases { AreLeases by_conn.old.pairs by_deadline.old.pairs }
    requires none { deadline_of conn by_conn.old.pairs ≡ None }
    requires conn_room { 0 < by_conn.old.spare }
    requires deadline_room { 0 < by_deadline.old.spare }
    ensures leases { AreLeases by_conn.new.pairs by_deadline.new.pairs }
    ensures changed { (q : ℕ) → deadline_of q by_conn.new.pairs ≡ (if q == conn then Some deadline else deadline_of q by_conn.old.pairs) }
    ensures conn_spare { by_conn.old.spare ≤ by_conn.new.spare + 1 }
    ensures deadline_spare { by_deadline.old.spare ≤ by_deadline.new.spare + 1 }
    ensures cost { steps.new ≡ steps.old + 2 }
{
    by_conn.insert((conn, deadline as usize), steps).unwrap();
    by_deadline
        .insert((deadline, conn as usize), steps)
        .unwrap();
}

/// Whether the pair at this place is due.
fn is_due_at<L: Ledger>(order: &Order, at: usize, now: u64, steps: &mut Steps<L>) -> bool
    ensures value { result ≡ nat_lt at (length (due_pairs now order.now.pairs)) }
    ensures within { result ≡ true → at + 1 < 2 ^ 64 }
    ensures rising { is_rising order.now.pairs ≡ true }
    ensures cost { steps.new ≡ steps.old + 1 }
{
    match order.get(at, steps) {
        Some(pair) => pair.0 <= now,
        None => false,
    }
}

/// How many pairs are due. They stand in front.
pub fn count_due<L: Ledger>(order: &Order, now: u64, steps: &mut Steps<L>) -> usize
    ensures value { result ≡ length (due_pairs now order.now.pairs) }
    ensures rising { is_rising order.now.pairs ≡ true }
    ensures cost { steps.new ≡ steps.old + result + 1 }
{
    let mut at = 0;
    while is_due_at(order, at, now, steps) {
        at += 1;
    }
    at
}

/// The connection of the pair at this place, which is due.
pub fn conn_at<L: Ledger>(order: &Order, at: usize, now: u64, steps: &mut Steps<L>) -> u64
    requires { at < length (due_pairs now order.now.pairs) }
    ensures value { (deadline : ℕ) × (slice_get (due_pairs now order.now.pairs) at ≡ Some (deadline, result)) }
    ensures cost { steps.new ≡ steps.old + 1 }
{
    let (_deadline, conn) = order.get(at, steps).unwrap();
    conn as u64
}
