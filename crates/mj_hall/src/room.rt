ghost use Rattle.std.specs.Prelude.{◌≡◌, ◌+◌, ◌^◌, ◌≤◌, ◌<◌, ◌==◌, ℕ, List, None, Some, IfOk, OnOk, OnErr, is_some, true, false};
ghost use Rattle.mj_base.specs.KeptWeight.{weight_of};
ghost use Rattle.mj_counted.specs.Names.{key_of};
ghost use Rattle.mj_counted.specs.Rows.{entries, entry, spare};
ghost use Rattle.mj_chain.specs.Seats.{Seat, are_distinct, head_of, seat_key};
ghost use Rattle.mj_hall.specs.Desks.{Desks, desk_of};
ghost use Rattle.mj_hall.specs.Serving.{workers_at};

use crate::counts::weighs_at_most;
use crate::desks::open;
use crate::kept::{Queued, Worker};
use mj_base::{Name, NoMemory};
use mj_chain::{Desk, Node};
use mj_counted::{Index, Order, Rows, Steps};
use mj_queue::Request;
use std::sync::ledger::Ledger;

/// Makes room for one request more of this service, and opens its desk. Without memory all stays as it is.
pub fn room_for_request<L: Ledger>(
    requests: &mut Rows<Node<Queued>>,
    clients: &mut Order,
    tickets: &mut Order,
    pairs: &mut Order,
    desks: &mut Rows<Desk>,
    names: &mut Index,
    name: &Name,
    steps: &mut Steps<L>,
) -> Result<usize, NoMemory>
    ensures same { (k : ℕ) → entry requests.new k ≡ entry requests.old k }
    ensures count { entries requests.new ≡ entries requests.old }
    ensures clients { clients.new.pairs ≡ clients.old.pairs }
    ensures tickets { tickets.new.pairs ≡ tickets.old.pairs }
    ensures pairs { pairs.new.pairs ≡ pairs.old.pairs }
    ensures desks { (es : List (Seat Queued)) (ws : List (Seat Worker)) → are_distinct seat_key es ≡ true → are_distinct seat_key ws ≡ true → Desks desks.old names.old es ws → Desks desks.new names.new es ws }
    ensures named { IfOk result (λ desk. key_of names.new name.now ≡ Some desk) }
    ensures opened { IfOk result (λ desk. (q : List ℕ) (d : ℕ) → key_of names.new q ≡ Some d → (d == desk) ≡ false → key_of names.old q ≡ Some d) }
    ensures unopened { OnErr result ((q : List ℕ) → key_of names.new q ≡ key_of names.old q) }
    ensures rows_room { OnOk result (0 < spare requests.new) }
    ensures clients_room { OnOk result (0 < clients.new.spare) }
    ensures tickets_room { OnOk result (0 < tickets.new.spare) }
    ensures pairs_room { OnOk result (0 < pairs.new.spare) }
    ensures cost { steps.new ≤ steps.old + 4 }
{
    requests.reserve(1)?;
    clients.reserve(1)?;
    tickets.reserve(1)?;
    pairs.reserve(1)?;
    open(desks, names, name, steps)
}

/// Makes room for one worker more of this service, and opens its desk. Without memory all stays as it is.
pub fn room_for_worker<L: Ledger>(
    workers: &mut Rows<Node<Worker>>,
    conns: &mut Order,
    pairs: &mut Order,
    desks: &mut Rows<Desk>,
    names: &mut Index,
    name: &Name,
    steps: &mut Steps<L>,
) -> Result<usize, NoMemory>
    ensures same { (k : ℕ) → entry workers.new k ≡ entry workers.old k }
    ensures count { entries workers.new ≡ entries workers.old }
    ensures conns { conns.new.pairs ≡ conns.old.pairs }
    ensures pairs { pairs.new.pairs ≡ pairs.old.pairs }
    ensures desks { (es : List (Seat Queued)) (ws : List (Seat Worker)) → are_distinct seat_key es ≡ true → are_distinct seat_key ws ≡ true → Desks desks.old names.old es ws → Desks desks.new names.new es ws }
    ensures named { IfOk result (λ desk. key_of names.new name.now ≡ Some desk) }
    ensures opened { IfOk result (λ desk. (q : List ℕ) (d : ℕ) → key_of names.new q ≡ Some d → (d == desk) ≡ false → key_of names.old q ≡ Some d) }
    ensures unopened { OnErr result ((q : List ℕ) → key_of names.new q ≡ key_of names.old q) }
    ensures rows_room { OnOk result (0 < spare workers.new) }
    ensures conns_room { OnOk result (0 < conns.new.spare) }
    ensures pairs_room { OnOk result (2 ≤ pairs.new.spare) }
    ensures cost { steps.new ≤ steps.old + 4 }
{
    workers.reserve(1)?;
    conns.reserve(1)?;
    pairs.reserve(2)?;
    open(desks, names, name, steps)
}

/// Whether one worker more can be counted.
pub fn has_place(waiting: usize, busy: usize) -> bool
    ensures { result ≡ true → waiting + busy + 1 < 2 ^ 64 }
{
    waiting < usize::MAX && busy < usize::MAX - waiting
}

/// Whether one request more can be counted, and a label is left for it.
pub fn can_count(next: u64, count: usize, queued: u64, weight: u64, request: &Request) -> bool
    ensures { result ≡ true → (next + 1 < 2 ^ 64) × (count + 1 < 2 ^ 64) × (queued + 1 < 2 ^ 64) × (weight + weight_of request.now.body < 2 ^ 64) }
{
    next < u64::MAX
        && count < usize::MAX
        && queued < u64::MAX
        && weighs_at_most(weight, &request.body, u64::MAX)
}

/// Whether a worker waits for this service.
pub fn is_awaited<L: Ledger>(
    desks: &Rows<Desk>,
    names: &Index,
    name: &Name,
    steps: &mut Steps<L>,
) -> bool
    ensures named { (d : ℕ) (es : List (Seat Queued)) (ws : List (Seat Worker)) → key_of names.now name.now ≡ Some d → entry desks.now d ≡ Some (desk_of d es ws) → result ≡ is_some (head_of seat_key (workers_at false d ws)) }
    ensures none { key_of names.now name.now ≡ None → result ≡ false }
    ensures cost { steps.new ≤ steps.old + 2 }
{
    match names.get(name, steps) {
        Some(key) => waits_at(desks, key, steps),
        None => false,
    }
}

fn waits_at<L: Ledger>(desks: &Rows<Desk>, key: usize, steps: &mut Steps<L>) -> bool
    ensures value { (es : List (Seat Queued)) (ws : List (Seat Worker)) → entry desks.now key ≡ Some (desk_of key es ws) → result ≡ is_some (head_of seat_key (workers_at false key ws)) }
    ensures cost { steps.new ≡ steps.old + 1 }
{
    match desks.get(key, steps) {
        Some(desk) => desk.waiting.first.is_some(),
        None => false,
    }
}
