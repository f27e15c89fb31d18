//! The connections by address.
ghost use Rattle.std.specs.Prelude.{◌≡◌, ◌&&◌, ◌++◌, ◌∷◌, [], ℕ, List, Some, drop, slice_get, is_some, option_map, IfOk, OnOk, IsSome, if◌then◌else◌};
ghost use Rattle.std.specs.Str.{bytes_eq};
ghost use Rattle.mj_ledger.specs.Dues.{owing_of, service_in, waits_of};
ghost use Rattle.mj_ledger.specs.Found.{found, hand_at, queue_at};
ghost use Rattle.mj_ledger.specs.Hands.{fresh, hand_by};
ghost use Rattle.mj_ledger.specs.declared.hand.Change.{Change as AChange};

use super::hand::Change;
use super::{Hand, Peer};
use indexmap::IndexMap;
use mj_base::{Frames, NoMemory, Octets};
use std::alloc::Global;

/// A connection more.
pub(crate) fn meet(
    peers: &mut IndexMap<Vec<u8>, Peer>,
    alloc: Global,
    who: &[u8],
) -> Result<(), NoMemory>
    ensures hands { OnOk result ((q : List ℕ) → hand_at peers.new q ≡ (if bytes_eq who.now q then Some fresh else hand_at peers.old q)) }
    ensures queues { OnOk result ((q s : List ℕ) → queue_at peers.new q s ≡ (if bytes_eq who.now q then [] else queue_at peers.old q s)) }
{
    peers.insert(Vec::from_slice(alloc, who)?, Peer::fresh(alloc))?;
    Ok(())
}

pub(crate) fn is_known(peers: &IndexMap<Vec<u8>, Peer>, who: &[u8]) -> bool
    ensures { result ≡ is_some (hand_at peers.now who.now) }
{
    peers.get(who).is_some()
}

/// Something happens to the connection with this address, where there is one.
pub(crate) fn change(peers: &mut IndexMap<Vec<u8>, Peer>, who: &[u8], change: Change)
    ensures hands { (q : List ℕ) → hand_at peers.new q ≡ (if bytes_eq who.now q then option_map (hand_by change) (hand_at peers.old q) else hand_at peers.old q) }
    ensures queues { (q s : List ℕ) → queue_at peers.new q s ≡ queue_at peers.old q s }
{
    if let Some(peer) = peers.get_mut(who) {
        peer.hand.change(change);
    }
}

/// A request more of the connection with this address.
pub(crate) fn ask(
    peers: &mut IndexMap<Vec<u8>, Peer>,
    alloc: Global,
    who: &[u8],
    service: &[u8],
    body: Frames,
) -> Result<(), NoMemory>
    ensures hands { (q : List ℕ) → hand_at peers.new q ≡ hand_at peers.old q }
    ensures queues { OnOk result (IsSome (hand_at peers.old who.now) → (q s : List ℕ) → queue_at peers.new q s ≡ (if bytes_eq who.now q && bytes_eq service.now s then queue_at peers.old q s ++ body ∷ [] else queue_at peers.old q s)) }
{
    match peers.get_mut(who) {
        Some(peer) => peer.ask(alloc, service, body),
        None => Ok(()),
    }
}

/// Takes out the first request of this connection for this service.
pub(crate) fn take_first(
    peers: &mut IndexMap<Vec<u8>, Peer>,
    who: &[u8],
    service: &[u8],
) -> Option<Frames>
    ensures hands { (q : List ℕ) → hand_at peers.new q ≡ hand_at peers.old q }
    ensures first { result ≡ slice_get (queue_at peers.old who.now service.now) 0 }
    ensures queues { (q s : List ℕ) → queue_at peers.new q s ≡ (if bytes_eq who.now q && bytes_eq service.now s then drop 1 (queue_at peers.old q s) else queue_at peers.old q s) }
{
    match peers.get_mut(who) {
        Some(peer) => peer.take_first(service),
        None => None,
    }
}

/// Whether the connection waits for requests.
pub(crate) fn waits(peers: &IndexMap<Vec<u8>, Peer>, who: &[u8]) -> bool
    ensures { result ≡ waits_of (hand_at peers.now who.now) }
{
    match peers.get(who) {
        Some(peer) => peer.hand.waiting,
        None => false,
    }
}

/// The service that the connection named.
pub(crate) fn service_of(
    peers: &IndexMap<Vec<u8>, Peer>,
    alloc: Global,
    who: &[u8],
) -> Result<Option<Octets>, NoMemory>
    ensures { IfOk result (λ service. service ≡ service_in (hand_at peers.now who.now)) }
{
    match peers.get(who) {
        Some(peer) => copied(&peer.hand.service, alloc),
        None => Ok(None),
    }
}

/// The service for which a reply of the connection with this address counts.
pub(crate) fn owing_service(
    peers: &IndexMap<Vec<u8>, Peer>,
    alloc: Global,
    who: &[u8],
    to: &[u8],
) -> Result<Option<Octets>, NoMemory>
    ensures { IfOk result (λ service. service ≡ owing_of (hand_at peers.now who.now) to.now) }
{
    match peers.get(who) {
        Some(peer) => owing(&peer.hand, alloc, to),
        None => Ok(None),
    }
}

fn owing(hand: &Hand, alloc: Global, to: &[u8]) -> Result<Option<Octets>, NoMemory>
    ensures { IfOk result (λ service. service ≡ owing_of (Some hand.now) to.now) }
{
    if hand.holds(to) {
        copied(&hand.service, alloc)
    } else {
        Ok(None)
    }
}

pub(crate) fn copied(name: &Option<Octets>, alloc: Global) -> Result<Option<Octets>, NoMemory>
    ensures { IfOk result (λ copy. copy ≡ name.now) }
{
    match name {
        Some(name) => Ok(Some(Octets::copy_of(alloc, name.as_slice())?)),
        None => Ok(None),
    }
}
