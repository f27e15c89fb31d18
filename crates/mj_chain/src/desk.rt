ghost use Rattle.std.specs.Prelude.{◌≡◌, ◌+◌, ◌==◌, ℕ, option_map, if◌then◌else◌};
ghost use Rattle.mj_counted.specs.Rows.{entries, entry, spare};
ghost use Rattle.mj_chain.specs.Links.{prolonged, unended};
ghost use Rattle.mj_chain.specs.Desks.{line_of, with_line};

use super::{Ends, Link};
use mj_counted::{Rows, Steps};
use std::sync::ledger::Ledger;

/// The three lines of one service: its requests, its waiting workers and its busy ones.
#[derive(Clone, Copy, Debug, PartialEq, Eq)]
pub struct Desk {
    pub requests: Ends,
    pub waiting: Ends,
    pub busy: Ends,
}

#[derive(Clone, Copy, Debug, PartialEq, Eq)]
pub enum Line {
    Requests,
    Waiting,
    Busy,
}

fn without(ends: Ends, gone: Link) -> Ends
    ensures { result ≡ unended gone ends }
{
    Ends {
        first: if gone.prev.is_none() {
            gone.next
        } else {
            ends.first
        },
        last: if gone.next.is_none() {
            gone.prev
        } else {
            ends.last
        },
    }
}

fn with(ends: Ends, key: usize) -> Ends
    ensures { result ≡ prolonged key ends }
{
    Ends {
        first: if ends.last.is_none() {
            Some(key)
        } else {
            ends.first
        },
        last: Some(key),
    }
}

/// A row with this link leaves a line of this desk.
pub fn leave<L: Ledger>(
    desks: &mut Rows<Desk>,
    key: usize,
    line: Line,
    gone: Link,
    steps: &mut Steps<L>,
)
    ensures changed { (k : ℕ) → entry desks.new k ≡ (if k == key then option_map (λ desk. with_line line (unended gone (line_of line desk)) desk) (entry desks.old k) else entry desks.old k) }
    ensures count { entries desks.new ≡ entries desks.old }
    ensures room { spare desks.new ≡ spare desks.old }
    ensures cost { steps.new ≡ steps.old + 1 }
{
    if let Some(desk) = desks.get_mut(key, steps) {
        match line {
            Line::Requests => desk.requests = without(desk.requests, gone),
            Line::Waiting => desk.waiting = without(desk.waiting, gone),
            Line::Busy => desk.busy = without(desk.busy, gone),
        }
    }
}

/// A row comes last into a line of this desk.
pub fn join<L: Ledger>(
    desks: &mut Rows<Desk>,
    key: usize,
    line: Line,
    row: usize,
    steps: &mut Steps<L>,
)
    ensures changed { (k : ℕ) → entry desks.new k ≡ (if k == key then option_map (λ desk. with_line line (prolonged row (line_of line desk)) desk) (entry desks.old k) else entry desks.old k) }
    ensures count { entries desks.new ≡ entries desks.old }
    ensures room { spare desks.new ≡ spare desks.old }
    ensures cost { steps.new ≡ steps.old + 1 }
{
    if let Some(desk) = desks.get_mut(key, steps) {
        match line {
            Line::Requests => desk.requests = with(desk.requests, row),
            Line::Waiting => desk.waiting = with(desk.waiting, row),
            Line::Busy => desk.busy = with(desk.busy, row),
        }
    }
}
