ghost use Rattle.std.specs.Prelude.{◌≡◌, ◌+◌, ◌≤◌, ◌<◌, ◌==◌, ℕ, List, None, Some, IfOk, OnErr, true, false, ◌||◌, is_some};
ghost use Rattle.mj_counted.specs.Names.{key_of};
ghost use Rattle.mj_chain.specs.Seats.{Seat, are_distinct, head_of, seat_key};
ghost use Rattle.mj_counted.specs.Rows.{entry};
ghost use Rattle.mj_hall.specs.Desks;
ghost use Rattle.mj_hall.specs.Desks.{Desks, PeopledBut, desk_of};
ghost use Rattle.mj_hall.specs.Serving.{workers_at};

use crate::kept::{Queued, Worker};
use mj_base::{Name, NoMemory};
use mj_chain::{Desk, Ends};
use mj_counted::{Index, Rows, Steps};
use std::sync::ledger::Ledger;

fn nobody() -> Ends
    ensures { result ≡ record { first = None; last = None } }
{
    Ends {
        first: None,
        last: None,
    }
}

fn new_desk() -> Desk
    ensures { result ≡ record { requests = record { first = None; last = None }; waiting = record { first = None; last = None }; busy = record { first = None; last = None } } }
{
    Desk {
        requests: nobody(),
        waiting: nobody(),
        busy: nobody(),
    }
}

/// Opens a desk for a service that has none.
fn open_new<L: Ledger>(
    desks: &mut Rows<Desk>,
    names: &mut Index,
    name: &Name,
    steps: &mut Steps<L>,
) -> Result<usize, NoMemory>
    requires { key_of names.old name.now ≡ None }
    ensures desks { (es : List (Seat Queued)) (ws : List (Seat Worker)) → are_distinct seat_key es ≡ true → are_distinct seat_key ws ≡ true → Desks desks.old names.old es ws → Desks desks.new names.new es ws }
    ensures named { IfOk result (λ desk. key_of names.new name.now ≡ Some desk) }
    ensures opened { IfOk result (λ desk. (q : List ℕ) (d : ℕ) → key_of names.new q ≡ Some d → (d == desk) ≡ false → key_of names.old q ≡ Some d) }
    ensures unopened { OnErr result ((q : List ℕ) → key_of names.new q ≡ key_of names.old q) }
    ensures cost { steps.new ≤ steps.old + 3 }
{
    let key = desks.insert(new_desk(), steps)?;
    match names.insert(name, key, steps) {
        Ok(()) => Ok(key),
        Err(error) => {
            desks.take(key, steps);
            Err(error)
        }
    }
}

/// The desk of this service, which is opened where there is none.
pub fn open<L: Ledger>(
    desks: &mut Rows<Desk>,
    names: &mut Index,
    name: &Name,
    steps: &mut Steps<L>,
) -> Result<usize, NoMemory>
    ensures desks { (es : List (Seat Queued)) (ws : List (Seat Worker)) → are_distinct seat_key es ≡ true → are_distinct seat_key ws ≡ true → Desks desks.old names.old es ws → Desks desks.new names.new es ws }
    ensures named { IfOk result (λ desk. key_of names.new name.now ≡ Some desk) }
    ensures opened { IfOk result (λ desk. (q : List ℕ) (d : ℕ) → key_of names.new q ≡ Some d → (d == desk) ≡ false → key_of names.old q ≡ Some d) }
    ensures unopened { OnErr result ((q : List ℕ) → key_of names.new q ≡ key_of names.old q) }
    ensures cost { steps.new ≤ steps.old + 4 }
{
    match names.get(name, steps) {
        Some(desk) => Ok(desk),
        None => open_new(desks, names, name, steps),
    }
}

/// Whether somebody asks at this desk, waits there, or is busy there.
fn is_peopled(desk: &Desk) -> bool
    ensures { result ≡ Desks.is_peopled desk.now }
{
    desk.requests.first.is_some() || desk.waiting.first.is_some() || desk.busy.first.is_some()
}

/// Shuts the desk of this service, where nobody asks for it or serves it.
pub fn shut<L: Ledger>(
    desks: &mut Rows<Desk>,
    names: &mut Index,
    name: &Name,
    key: usize,
    steps: &mut Steps<L>,
)
    requires { key_of names.old name.now ≡ Some key }
    ensures desks { (es : List (Seat Queued)) (ws : List (Seat Worker)) → are_distinct seat_key es ≡ true → are_distinct seat_key ws ≡ true → Desks desks.old names.old es ws → Desks desks.new names.new es ws }
    ensures peopled { (es : List (Seat Queued)) (ws : List (Seat Worker)) → Desks desks.old names.old es ws → PeopledBut (Some key) names.old es ws → PeopledBut None names.new es ws }
    ensures cost { steps.new ≤ steps.old + 3 }
{
    let Some(desk) = desks.get(key, steps) else {
        return;
    };
    if is_peopled(desk) {
        return;
    }
    names.remove(name, steps);
    desks.take(key, steps);
}

/// Whether a worker waits at this desk or is busy there.
pub fn is_staffed<L: Ledger>(desks: &Rows<Desk>, key: usize, steps: &mut Steps<L>) -> bool
    ensures value { (es : List (Seat Queued)) (ws : List (Seat Worker)) → entry desks.now key ≡ Some (desk_of key es ws) → result ≡ (is_some (head_of seat_key (workers_at false key ws)) || is_some (head_of seat_key (workers_at true key ws))) }
    ensures cost { steps.new ≡ steps.old + 1 }
{
    match desks.get(key, steps) {
        Some(desk) => desk.waiting.first.is_some() || desk.busy.first.is_some(),
        None => false,
    }
}
