ghost use Rattle.std.specs.Prelude.{◌≡◌, ◌+◌, ◌-◌, ◌^◌, ◌≤◌, ◌<◌, nat_le, nat_lt, not, ◌&&◌, ◌||◌, true, if◌then◌else◌, SomeIff};
ghost use Rattle.mj_base.specs.KeptWeight.{weight_of};
ghost use Rattle.mj_queue.specs.Settling;

use crate::kept::Worker;
use mj_base::{Frames, Limits};
use mj_queue::{Origin, Request};

/// Whether a client asks.
pub fn is_of_client(origin: Origin) -> bool
    ensures { result ≡ Settling.is_of_client origin }
{
    match origin {
        Origin::Client(_) => true,
        Origin::Ticket(_) => false,
    }
}

/// A request is counted no more.
pub fn count_out(queued: &mut u64, weight: &mut u64, request: &Request)
    requires fits { Settling.is_of_client request.now.origin ≡ true → (1 ≤ queued.old) × (weight_of request.now.body ≤ weight.old) }
    ensures queued { queued.new + (if Settling.is_of_client request.now.origin then 1 else 0) ≡ queued.old }
    ensures weight { weight.new + (if Settling.is_of_client request.now.origin then weight_of request.now.body else 0) ≡ weight.old }
{
    let total = *weight;
    if is_of_client(request.origin) {
        let frames = request.body.len() as u64;
        *queued -= 1;
        *weight = total - request.body.octets() - 32 * frames;
    }
}

/// The same worker, busy.
pub fn busied(worker: Worker) -> Worker
    ensures { result ≡ record worker { busy = true } }
{
    Worker {
        waiter: worker.waiter,
        desk: worker.desk,
        busy: true,
    }
}

/// Whether this body weighs, beside what is queued, at most this much.
pub fn weighs_at_most(weight: u64, body: &Frames, most: u64) -> bool
    ensures { result ≡ nat_le (weight + weight_of body.now) most }
{
    let Some(left) = most.checked_sub(weight) else {
        return false;
    };
    less(left, body).is_some()
}

/// What is left of this weight without that of a body, or None where it isn't enough.
fn less(weight: u64, body: &Frames) -> Option<u64>
    ensures { SomeIff result (weight_of body.now ≤ weight) (weight - weight_of body.now) }
{
    let frames = (body.len() as u64).checked_mul(32)?;
    weight.checked_sub(body.octets())?.checked_sub(frames)
}

/// A request more is counted.
pub fn count_in(queued: &mut u64, weight: &mut u64, request: &Request)
    requires fits { (queued.old + 1 < 2 ^ 64) × (weight.old + weight_of request.now.body < 2 ^ 64) }
    ensures queued { queued.new ≡ queued.old + (if Settling.is_of_client request.now.origin then 1 else 0) }
    ensures weight { weight.new ≡ weight.old + (if Settling.is_of_client request.now.origin then weight_of request.now.body else 0) }
{
    let total = *weight;
    if is_of_client(request.origin) {
        let frames = request.body.len() as u64;
        *queued += 1;
        *weight = total + request.body.octets() + 32 * frames;
    }
}

/// Whether a client asks, no worker waits, and too many are queued or they would weigh too much with this one.
pub fn is_past(limits: &Limits, queued: u64, weight: u64, awaited: bool, request: &Request) -> bool
    ensures { result ≡ (Settling.is_of_client request.now.origin && (not awaited && (nat_le limits.now.queued queued || nat_lt limits.now.queued_weight (weight + weight_of request.now.body)))) }
{
    if !is_of_client(request.origin) || awaited {
        return false;
    }
    queued >= limits.queued || !weighs_at_most(weight, &request.body, limits.queued_weight)
}
