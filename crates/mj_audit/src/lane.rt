//! A connection on a lane.
ghost use Rattle.std.specs.Prelude.{◌≡◌, ◌++◌, [], List, ℕ, IfOk, OnOk};
ghost use Rattle.mj_base.specs.StandardLimits.{peer_limits, standard_limits};
ghost use Rattle.mj_wire.specs.StreamItems.{gained};
ghost use Rattle.mj_wire.specs.WireState.{StandsFor};

use mj_base::{Limits, NoMemory, Octets};
use mj_wire::{Wire, WireItem};
use std::alloc::Global;

/// A connection: the address by which the broker knows it, and the readers of what it sent and of what it was sent.
#[derive(Drop)]
pub struct Lane {
    pub address: Octets,
    pub received: Wire,
    pub sent: Wire,
}

impl Lane {
    pub(crate) fn new(alloc: Global, address: Octets) -> Result<Lane, NoMemory>
        ensures address { IfOk result (λ lane. lane.address ≡ address) }
        ensures received { IfOk result (λ lane. StandsFor standard_limits lane.received []) }
        ensures sent { IfOk result (λ lane. StandsFor peer_limits lane.sent []) }
    {
        Ok(Lane {
            address,
            received: Wire::new(alloc, &Limits::standard())?,
            sent: Wire::new(alloc, &Limits::peer())?,
        })
    }

    /// The items that this received piece completes.
    pub(crate) fn receive(&mut self, alloc: Global, piece: &[u8]) -> Result<Vec<WireItem>, NoMemory>
        ensures items { IfOk result (λ items. (stream : List ℕ) → StandsFor standard_limits self.old.received stream → items.items ≡ gained standard_limits stream piece.now) }
        ensures stream { OnOk result ((stream : List ℕ) → StandsFor standard_limits self.old.received stream → StandsFor standard_limits self.new.received (stream ++ piece.now)) }
        ensures address { self.new.address ≡ self.old.address }
        ensures sent { self.new.sent ≡ self.old.sent }
    {
        if self.received.is_spent() {
            return Err(NoMemory);
        }
        let mut items = Vec::new(alloc);
        self.received.feed(alloc, piece, &mut items)?;
        Ok(items)
    }

    /// The items that this sent piece completes.
    pub(crate) fn send(&mut self, alloc: Global, piece: &[u8]) -> Result<Vec<WireItem>, NoMemory>
        ensures items { IfOk result (λ items. (stream : List ℕ) → StandsFor peer_limits self.old.sent stream → items.items ≡ gained peer_limits stream piece.now) }
        ensures stream { OnOk result ((stream : List ℕ) → StandsFor peer_limits self.old.sent stream → StandsFor peer_limits self.new.sent (stream ++ piece.now)) }
        ensures address { self.new.address ≡ self.old.address }
        ensures received { self.new.received ≡ self.old.received }
    {
        if self.sent.is_spent() {
            return Err(NoMemory);
        }
        let mut items = Vec::new(alloc);
        self.sent.feed(alloc, piece, &mut items)?;
        Ok(items)
    }
}
