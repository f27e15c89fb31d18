//! Who waits, and who is kept waiting, among the connections that aren't gone.
ghost use Rattle.std.specs.Prelude.{◌≡◌, ◌||◌, ◌&&◌, not, ℕ, List, nat_lt, length};
ghost use Rattle.std.specs.List.{filter, list_any};
ghost use Rattle.std.specs.Str.{bytes_eq};
ghost use Rattle.mj_ledger.specs.Dues.{waits_for_of};
ghost use Rattle.mj_ledger.specs.Events;
ghost use Rattle.mj_ledger.specs.Found.{hand_at, queue_at};

use super::Peer;
use super::same::is_same;
use indexmap::IndexMap;
use mj_base::Octets;

/// Whether a broker may answer requests for this name itself (ZeroMQ RFC 8 and 9).
pub(crate) fn is_passed(service: &[u8]) -> bool
    ensures { result ≡ Events.is_passed service.now }
{
    service.starts_with(b"mmi.") || service.starts_with(b"titanic.")
}

/// Whether a worker among these waits for this service.
pub(crate) fn some_waits(
    peers: &IndexMap<Vec<u8>, Peer>,
    present: &[Octets],
    service: &[u8],
) -> bool
    ensures { result ≡ list_any (λ who. waits_for_of (hand_at peers.now who) service.now) present.now }
{
    for who in present {
        if waits_for(peers, who.as_slice(), service) {
            return true;
        }
    }
    false
}

fn waits_for(peers: &IndexMap<Vec<u8>, Peer>, who: &[u8], service: &[u8]) -> bool
    ensures { result ≡ waits_for_of (hand_at peers.now who.now) service.now }
{
    match peers.get(who) {
        Some(peer) => peer.hand.waiting && peer.hand.serves(service),
        None => false,
    }
}

/// Whether one of these has a request for this service that wasn't sent on.
pub(crate) fn some_asks(peers: &IndexMap<Vec<u8>, Peer>, present: &[Octets], service: &[u8]) -> bool
    ensures { result ≡ list_any (λ who. nat_lt 0 (length (queue_at peers.now who service.now))) present.now }
{
    for who in present {
        if asks(peers, who.as_slice(), service) {
            return true;
        }
    }
    false
}

fn asks(peers: &IndexMap<Vec<u8>, Peer>, who: &[u8], service: &[u8]) -> bool
    ensures { result ≡ nat_lt 0 (length (queue_at peers.now who.now service.now)) }
{
    match peers.get(who) {
        Some(peer) => peer.asks(service),
        None => false,
    }
}

/// Takes this address out.
pub(crate) fn leave(present: &mut Vec<Octets>, who: &[u8])
    ensures { present.new.items ≡ filter (λ x. not (bytes_eq x who.now)) present.old.items }
{
    present.retain(|address| !is_same(address.as_slice(), who));
}
