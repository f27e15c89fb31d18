//! A connection, with its requests that weren't sent on.
ghost use Rattle.std.specs.Prelude.{◌≡◌, ◌++◌, ◌∷◌, [], ℕ, List, nat_lt, length, drop, slice_get, OnOk, if◌then◌else◌};
ghost use Rattle.std.specs.Str.{bytes_eq};
ghost use Rattle.mj_ledger.specs.Found.{bodies};
ghost use Rattle.mj_ledger.specs.Hands.{fresh};

use super::Hand;
use indexmap::IndexMap;
use mj_base::{Frames, NoMemory};
use std::alloc::Global;
use std::collections::VecDeque;

/// A connection: what it is as a worker, and the bodies of its requests that weren't sent on, by service.
#[derive(Drop)]
pub struct Peer {
    pub hand: Hand,
    pub requests: IndexMap<Vec<u8>, VecDeque<Frames>>,
}

impl Peer {
    pub(crate) fn fresh(alloc: Global) -> Peer
        ensures hand { result.hand ≡ fresh }
        ensures none { (s : List ℕ) → bodies result s ≡ [] }
    {
        Peer {
            hand: Hand::fresh(),
            requests: IndexMap::new(alloc),
        }
    }

    /// One more request for this service.
    pub(crate) fn ask(
        &mut self,
        alloc: Global,
        service: &[u8],
        body: Frames,
    ) -> Result<(), NoMemory>
        ensures hand { self.new.hand ≡ self.old.hand }
        ensures more { OnOk result ((s : List ℕ) → bodies self.new s ≡ (if bytes_eq service.now s then bodies self.old s ++ body ∷ [] else bodies self.old s)) }
    {
        if let Some(queue) = self.requests.get_mut(service) {
            queue.push_back(body)?;
            return Ok(());
        }
        let mut queue = VecDeque::new(alloc);
        queue.push_back(body)?;
        self.requests
            .insert(Vec::from_slice(alloc, service)?, queue)?;
        Ok(())
    }

    /// Takes out the first of its requests for this service.
    pub(crate) fn take_first(&mut self, service: &[u8]) -> Option<Frames>
        ensures hand { self.new.hand ≡ self.old.hand }
        ensures first { result ≡ slice_get (bodies self.old service.now) 0 }
        ensures less { (s : List ℕ) → bodies self.new s ≡ (if bytes_eq service.now s then drop 1 (bodies self.old s) else bodies self.old s) }
    {
        match self.requests.get_mut(service) {
            Some(queue) => queue.pop_front(),
            None => None,
        }
    }

    /// Whether it has a request for this service.
    pub(crate) fn asks(&self, service: &[u8]) -> bool
        ensures { result ≡ nat_lt 0 (length (bodies self.now service.now)) }
    {
        match self.requests.get(service) {
            Some(queue) => !queue.is_empty(),
            None => false,
        }
    }
}
