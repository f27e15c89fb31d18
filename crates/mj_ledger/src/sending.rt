//! A request goes to a worker: it is its client's next one, and leaves the client's table.
ghost use Rattle.std.specs.Prelude.{◌≡◌, ◌&&◌, ◌||◌, not, ℕ, List, Some, None, drop, is_some, IfOk, OnOk, if◌then◌else◌};
ghost use Rattle.std.specs.Str.{bytes_eq};
ghost use Rattle.mj_ledger.specs.Dues.{is_owned_of, judged_name, service_in};
ghost use Rattle.mj_ledger.specs.Found.{hand_at, has, queue_at};
ghost use Rattle.mj_ledger.specs.TranscriptLaws;
ghost use Rattle.mj_ledger.specs.Workers.{is_some_of};

use super::Peer;
use super::credit::claim;
use super::peers::{is_known, service_of, take_first};
use super::same::{either, is_same_body};
use super::waiting::is_passed;
use indexmap::{IndexMap, IndexSet};
use mj_base::{Frames, NoMemory, Octets};
use std::alloc::Global;

/// The service that the connection named, unless a broker may answer for it itself.
pub(crate) fn judged_service(
    peers: &IndexMap<Vec<u8>, Peer>,
    alloc: Global,
    who: &[u8],
) -> Result<Option<Octets>, NoMemory>
    ensures { IfOk result (λ service. service ≡ judged_name (service_in (hand_at peers.now who.now))) }
{
    match service_of(peers, alloc, who)? {
        Some(service) => Ok(judged(service)),
        None => Ok(None),
    }
}

fn judged(service: Octets) -> Option<Octets>
    ensures { result ≡ judged_name (Some service) }
{
    if is_passed(service.as_slice()) {
        None
    } else {
        Some(service)
    }
}

/// A request with this address goes to a worker of this service: whether it is the next of the connection that has the
/// address. Where no connection has it, that is noted.
pub(crate) fn send_on(
    peers: &mut IndexMap<Vec<u8>, Peer>,
    claimed: &mut IndexSet<Vec<u8>>,
    alloc: Global,
    to: &[u8],
    service: Option<Octets>,
    body: &Frames,
) -> Result<bool, NoMemory>
    ensures owned { IfOk result (λ owned. owned ≡ is_owned_of (hand_at peers.old to.now) service (queue_at peers.old to.now) body.now) }
    ensures hands { (q : List ℕ) → hand_at peers.new q ≡ hand_at peers.old q }
    ensures queues { OnOk result ((q s : List ℕ) → queue_at peers.new q s ≡ (if bytes_eq to.now q && is_some_of s service then drop 1 (queue_at peers.old q s) else queue_at peers.old q s)) }
    ensures claimed { OnOk result ((q : List ℕ) → hand_at peers.old q ≡ None → has claimed.new q ≡ (has claimed.old q || (bytes_eq to.now q && is_some service))) }
{
    match service {
        Some(service) => send_for(peers, claimed, alloc, to, service.as_slice(), body),
        None => Ok(true),
    }
}

fn send_for(
    peers: &mut IndexMap<Vec<u8>, Peer>,
    claimed: &mut IndexSet<Vec<u8>>,
    alloc: Global,
    to: &[u8],
    service: &[u8],
    body: &Frames,
) -> Result<bool, NoMemory>
    ensures owned { IfOk result (λ owned. owned ≡ is_owned_of (hand_at peers.old to.now) (Some service.now) (queue_at peers.old to.now) body.now) }
    ensures hands { (q : List ℕ) → hand_at peers.new q ≡ hand_at peers.old q }
    ensures queues { (q s : List ℕ) → queue_at peers.new q s ≡ (if bytes_eq to.now q && bytes_eq service.now s then drop 1 (queue_at peers.old q s) else queue_at peers.old q s) }
    ensures claimed { OnOk result ((q : List ℕ) → hand_at peers.old q ≡ None → has claimed.new q ≡ (has claimed.old q || bytes_eq to.now q)) }
{
    let known = is_known(peers, to);
    let first = take_first(peers, to, service);
    note(claimed, alloc, to, known)?;
    Ok(either(!known, is_body(first, body)))
}

fn is_body(first: Option<Frames>, body: &Frames) -> bool
    ensures { result ≡ TranscriptLaws.is_body body.now first }
{
    match first {
        Some(first) => is_same_body(body, &first),
        None => false,
    }
}

/// Notes an address that no connection has.
fn note(
    claimed: &mut IndexSet<Vec<u8>>,
    alloc: Global,
    to: &[u8],
    known: bool,
) -> Result<(), NoMemory>
    ensures { OnOk result ((q : List ℕ) → has claimed.new q ≡ (has claimed.old q || (not known && bytes_eq to.now q))) }
{
    if known {
        return Ok(());
    }
    claim(claimed, alloc, to)
}
