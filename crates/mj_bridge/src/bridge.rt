ghost use Rattle.std.specs.Prelude.{◌≡◌, ◌≤◌, [], true, false, IsOk, OnOk, OnErr, IfOk};
ghost use Rattle.mj_bridge.specs.BridgeRules.{FarGave, NearGave, Started, far_steps, fresh, near_steps, starts};
ghost use Rattle.mj_bridge.specs.BridgeStands.{Follows, GoesOn, IsLive, Stands};

use super::act::BridgeActs;
use super::deck::Deck;
use mj_base::{LinkEvent, Name, NoMemory};
use std::alloc::Global;

/// A bridge: a worker of the near broker that asks another broker for its answers, as a client of it. Both sides speak
/// version 0.1.
#[derive(Drop)]
pub struct Bridge {
    deck: Deck,
    spent: bool,
    ghost live: { spent ≡ false → IsLive deck },
}

impl Bridge {
    /// A bridge that serves `service` near with what `remote` answers far. Both sides have so many `tries`; a far try is
    /// over at `wait` quiet events, a near one at 75: nothing came for 100 ms, the link ended, or its stream broke the
    /// rules. Behind so many answers it leaves; a `count` of 0 has no end.
    pub fn new(
        alloc: Global,
        service: Name,
        remote: Name,
        tries: u32,
        wait: u32,
        count: u64,
    ) -> Result<Bridge, NoMemory>
        requires tries { 1 ≤ tries }
        requires wait { 1 ≤ wait }
        ensures stands { IfOk result (λ bridge. Stands bridge.deck (fresh service remote tries wait count)) }
        ensures ready { IfOk result (λ bridge. bridge.spent ≡ false) }
    {
        Ok(Bridge {
            deck: Deck::new(alloc, service, remote, tries, wait, count)?,
            spent: false,
        })
    }

    /// The acts with which its first near link begins.
    pub fn start(&mut self, alloc: Global) -> Result<BridgeActs, NoMemory>
        requires { self.old.spent ≡ false }
        ensures turn { IfOk result (λ acts. Follows self.old.deck self.new.deck [] acts starts) }
        ensures run { IfOk result (λ acts. GoesOn self.old.deck self.new.deck acts Started) }
        ensures ready { OnOk result (self.new.spent ≡ false) }
        ensures spent { OnErr result (self.new.spent ≡ true) }
        ensures over { self.old.deck.near.duty.over ≡ true → IsOk result × (self.new ≡ self.old) × IfOk result (λ acts. acts ≡ []) }
    {
        let mut acts = BridgeActs::new(alloc);
        if self.deck.is_over() {
            return Ok(acts);
        }
        self.spent = true;
        self.deck.greet(alloc, &mut acts)?;
        self.spent = false;
        Ok(acts)
    }

    /// The acts that follow on what the near link gave. After it has left or given up there are none.
    pub fn near(&mut self, alloc: Global, event: LinkEvent) -> Result<BridgeActs, NoMemory>
        requires { self.old.spent ≡ false }
        ensures turn { IfOk result (λ acts. Follows self.old.deck self.new.deck [] acts (near_steps event)) }
        ensures run { IfOk result (λ acts. GoesOn self.old.deck self.new.deck acts (NearGave event)) }
        ensures ready { OnOk result (self.new.spent ≡ false) }
        ensures spent { OnErr result (self.new.spent ≡ true) }
        ensures over { self.old.deck.near.duty.over ≡ true → IsOk result × (self.new ≡ self.old) × IfOk result (λ acts. acts ≡ []) }
    {
        let mut acts = BridgeActs::new(alloc);
        if self.deck.is_over() {
            return Ok(acts);
        }
        self.spent = true;
        self.deck.near_happen(alloc, &event, &mut acts)?;
        self.spent = false;
        Ok(acts)
    }

    /// The acts that follow on what the far link gave. After it has left or given up there are none.
    pub fn far(&mut self, alloc: Global, event: LinkEvent) -> Result<BridgeActs, NoMemory>
        requires { self.old.spent ≡ false }
        ensures turn { IfOk result (λ acts. Follows self.old.deck self.new.deck [] acts (far_steps event)) }
        ensures run { IfOk result (λ acts. GoesOn self.old.deck self.new.deck acts (FarGave event)) }
        ensures ready { OnOk result (self.new.spent ≡ false) }
        ensures spent { OnErr result (self.new.spent ≡ true) }
        ensures over { self.old.deck.near.duty.over ≡ true → IsOk result × (self.new ≡ self.old) × IfOk result (λ acts. acts ≡ []) }
    {
        let mut acts = BridgeActs::new(alloc);
        if self.deck.is_over() {
            return Ok(acts);
        }
        self.spent = true;
        self.deck.far_happen(alloc, event, &mut acts)?;
        self.spent = false;
        Ok(acts)
    }

    /// Whether it has left or given up.
    pub fn is_over(&self) -> bool
        ensures { result ≡ self.now.deck.near.duty.over }
    {
        self.deck.is_over()
    }

    /// How many REQUESTs were answered.
    pub fn served(&self) -> u64
        ensures { result ≡ self.now.deck.near.duty.served }
    {
        self.deck.near.served()
    }

    /// Whether memory ran out in an earlier call; then no other may follow.
    pub fn is_spent(&self) -> bool
        ensures { result ≡ self.now.spent }
    {
        self.spent
    }
}
