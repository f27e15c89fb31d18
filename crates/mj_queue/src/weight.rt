ghost use Rattle.std.specs.Prelude.{◌≡◌, ◌+◌, ◌-◌, ◌≤◌, nat_le, SomeIff};
ghost use Rattle.mj_base.specs.KeptWeight.{weight_of};
ghost use Rattle.mj_queue.specs.Settling;

use super::Request;
use super::places::is_of_client;
use mj_base::Frames;

/// The number of queued client requests.
pub fn queued(requests: &[Request]) -> u64
    ensures { result ≡ Settling.queued requests.now }
{
    requests
        .iter()
        .filter(|request| is_of_client(request.origin))
        .count() as u64
}

/// Whether the queued client requests and this body together weigh at most `most`.
pub fn fits(requests: &[Request], body: &Frames, most: u64) -> bool
    ensures { result ≡ nat_le (Settling.queued_weight requests.now + weight_of body.now) most }
{
    let Some(mut left) = less(most, body) else {
        return false;
    };
    for request in requests {
        if is_of_client(request.origin) {
            let Some(rest) = less(left, &request.body) else {
                return false;
            };
            left = rest;
        }
    }
    true
}

/// What is left of this weight without that of a body, or None where it isn't enough.
fn less(weight: u64, body: &Frames) -> Option<u64>
    ensures { SomeIff result (weight_of body.now ≤ weight) (weight - weight_of body.now) }
{
    let frames = (body.len() as u64).checked_mul(32)?;
    weight.checked_sub(body.octets())?.checked_sub(frames)
}
