ghost use Rattle.std.specs.Prelude.{◌≡◌, ◌+◌, ◌≤◌, ◌<◌, ◌==◌, ℕ, None, Some, IfSome, IfNone, OnSome, option_map, if◌then◌else◌};
ghost use Rattle.mj_counted.specs.Rows.{entries, entry, spare};
ghost use Rattle.mj_chain.specs.Nodes.{joined_by, left_by, relinked_in, with_next, with_next_at, with_prev, with_prev_at};

use super::{Chain, Link, Node};
use mj_counted::{Rows, Steps};
use std::sync::ledger::Ledger;

/// Writes which row is behind this one in a chain.
fn set_next<T, L: Ledger>(
    rows: &mut Rows<Node<T>>,
    chain: Chain,
    key: usize,
    next: Option<usize>,
    steps: &mut Steps<L>,
)
    ensures changed { (k : ℕ) → entry rows.new k ≡ (if k == key then option_map (with_next chain next) (entry rows.old k) else entry rows.old k) }
    ensures count { entries rows.new ≡ entries rows.old }
    ensures room { spare rows.new ≡ spare rows.old }
    ensures cost { steps.new ≡ steps.old + 1 }
{
    if let Some(node) = rows.get_mut(key, steps) {
        match chain {
            Chain::All => node.all.next = next,
            Chain::Service => node.service.next = next,
            Chain::Origin => node.origin.next = next,
        }
    }
}

/// Writes which row is in front of this one in a chain.
fn set_prev<T, L: Ledger>(
    rows: &mut Rows<Node<T>>,
    chain: Chain,
    key: usize,
    prev: Option<usize>,
    steps: &mut Steps<L>,
)
    ensures changed { (k : ℕ) → entry rows.new k ≡ (if k == key then option_map (with_prev chain prev) (entry rows.old k) else entry rows.old k) }
    ensures count { entries rows.new ≡ entries rows.old }
    ensures room { spare rows.new ≡ spare rows.old }
    ensures cost { steps.new ≡ steps.old + 1 }
{
    if let Some(node) = rows.get_mut(key, steps) {
        match chain {
            Chain::All => node.all.prev = prev,
            Chain::Service => node.service.prev = prev,
            Chain::Origin => node.origin.prev = prev,
        }
    }
}

/// The same, where there is such a row.
fn set_next_of<T, L: Ledger>(
    rows: &mut Rows<Node<T>>,
    chain: Chain,
    key: Option<usize>,
    next: Option<usize>,
    steps: &mut Steps<L>,
)
    ensures changed { (k : ℕ) → entry rows.new k ≡ option_map (with_next_at chain key next k) (entry rows.old k) }
    ensures count { entries rows.new ≡ entries rows.old }
    ensures room { spare rows.new ≡ spare rows.old }
    ensures cost { steps.new ≤ steps.old + 1 }
{
    if let Some(key) = key {
        set_next(rows, chain, key, next, steps);
    }
}

/// The same, where there is such a row.
fn set_prev_of<T, L: Ledger>(
    rows: &mut Rows<Node<T>>,
    chain: Chain,
    key: Option<usize>,
    prev: Option<usize>,
    steps: &mut Steps<L>,
)
    ensures changed { (k : ℕ) → entry rows.new k ≡ option_map (with_prev_at chain key prev k) (entry rows.old k) }
    ensures count { entries rows.new ≡ entries rows.old }
    ensures room { spare rows.new ≡ spare rows.old }
    ensures cost { steps.new ≤ steps.old + 1 }
{
    if let Some(key) = key {
        set_prev(rows, chain, key, prev, steps);
    }
}

/// Joins the two neighbours of a row that has left a chain.
fn relink<T, L: Ledger>(rows: &mut Rows<Node<T>>, chain: Chain, gone: Link, steps: &mut Steps<L>)
    ensures changed { (k : ℕ) → entry rows.new k ≡ option_map (relinked_in chain gone k) (entry rows.old k) }
    ensures count { entries rows.new ≡ entries rows.old }
    ensures room { spare rows.new ≡ spare rows.old }
    ensures cost { steps.new ≤ steps.old + 2 }
{
    set_prev_of(rows, chain, gone.next, gone.prev, steps);
    set_next_of(rows, chain, gone.prev, gone.next, steps);
}

/// Takes a row out of the rows and of its chains.
pub fn take_node<T, L: Ledger>(
    rows: &mut Rows<Node<T>>,
    key: usize,
    steps: &mut Steps<L>,
) -> Option<Node<T>>
    ensures value { result ≡ entry rows.old key }
    ensures changed { IfSome result (λ gone. (k : ℕ) → entry rows.new k ≡ (if k == key then None else option_map (left_by gone k) (entry rows.old k))) }
    ensures same { IfNone result ((k : ℕ) → entry rows.new k ≡ entry rows.old k) }
    ensures count { OnSome result (entries rows.new + 1 ≡ entries rows.old) }
    ensures room { OnSome result (spare rows.new ≡ spare rows.old + 1) }
    ensures cost { steps.new ≤ steps.old + 7 }
{
    let node = rows.take(key, steps)?;
    relink(rows, Chain::All, node.all, steps);
    relink(rows, Chain::Service, node.service, steps);
    relink(rows, Chain::Origin, node.origin, steps);
    Some(node)
}

/// Puts a row in, behind the last one of each of its chains.
pub fn put_node<T: Drop, L: Ledger>(
    rows: &mut Rows<Node<T>>,
    node: Node<T>,
    steps: &mut Steps<L>,
) -> usize
    requires { 0 < spare rows.old }
    ensures free { entry rows.old result ≡ None }
    ensures changed { (k : ℕ) → entry rows.new k ≡ option_map (joined_by node result k) (if k == result then Some node else entry rows.old k) }
    ensures count { entries rows.new ≡ entries rows.old + 1 }
    ensures room { spare rows.old ≤ spare rows.new + 1 }
    ensures cost { steps.new ≤ steps.old + 4 }
{
    let all = node.all.prev;
    let service = node.service.prev;
    let origin = node.origin.prev;
    let key = rows.insert(node, steps).unwrap();
    set_next_of(rows, Chain::All, all, Some(key), steps);
    set_next_of(rows, Chain::Service, service, Some(key), steps);
    set_next_of(rows, Chain::Origin, origin, Some(key), steps);
    key
}
