//! The end that gives a stopped store's commands.
ghost use Rattle.std.specs.Prelude.{◌≡◌, ◌≤◌, ◌+◌, ◌^◌, [], List, ℕ, false, true, length, take, drop, OnOk, OnErr, IfOk};
ghost use Rattle.mj_copy.specs.Found.{IsWithin, said_of};
ghost use Rattle.mj_copy.specs.Messages;
ghost use Rattle.mj_copy.specs.ShipRules.{is_going, new_ship, ship_begins, ship_ends, ship_gains, ship_idles, ship_meets, ship_steps, ship_takes};
ghost use Rattle.mj_copy.specs.ShipStands.{Follows, IsTurn, TakesOne, shipping_of};

use super::message::{Found, Said, find};
use super::phase::Phase;
use super::ship_act::{ShipAct, ShipActs};
use super::write::{base_octets, end_octets};
use bytes::BytesMut;
use mj_base::{LinkEvent, NoMemory};
use std::alloc::Global;

/// The end that gives the commands. It says the base of its file on each new link, sends the command that the other end
/// asks for, and is done when the other has all. It gives up when its tries are used.
#[derive(Drop)]
pub struct Ship {
    base: u64,
    total: u64,
    tries: u32,
    /// What was read on this link and not yet taken.
    kept: BytesMut,
    quiet: u32,
    used: u32,
    have: u64,
    begun: bool,
    phase: Phase,
    spent: bool,
}

impl Ship {
    /// An end whose file has this base and so many commands. A try is used where the link ends, something unlawful is
    /// read, or nothing lawful comes in 75 reads of 100 ms; a lawful message gives all tries back.
    pub fn new(alloc: Global, base: u64, total: u64, tries: u32) -> Result<Ship, NoMemory>
        requires base_from { 1 ≤ base }
        requires base_to { base ≤ 2 ^ 61 }
        ensures fresh { IfOk result (λ end. shipping_of end ≡ new_ship base total tries) }
        ensures ready { IfOk result (λ end. end.spent ≡ false) }
    {
        Ok(Ship {
            base,
            total,
            tries,
            kept: BytesMut::with_capacity(alloc, 64)?,
            quiet: 0,
            used: 0,
            have: 0,
            begun: false,
            phase: Phase::Going,
            spent: false,
        })
    }

    /// How many commands the other end said that it has, in its last lawful message.
    pub fn have(&self) -> u64
        ensures { result ≡ (shipping_of self.now).have }
    {
        self.have
    }

    /// How far it has come.
    pub fn phase(&self) -> Phase
        ensures { result ≡ (shipping_of self.now).phase }
    {
        self.phase
    }

    /// Whether memory ran out in an earlier call; then no other may follow.
    pub fn is_spent(&self) -> bool
        ensures { result ≡ self.now.spent }
    {
        self.spent
    }

    /// Takes one event, with all whole messages that are there. Without memory the end is spent.
    pub fn step(&mut self, alloc: Global, event: LinkEvent) -> Result<ShipActs, NoMemory>
        requires { self.old.spent ≡ false }
        ensures turn { IfOk result (λ acts. IsTurn self.new acts.items (ship_steps event (shipping_of self.old))) }
        ensures ready { OnOk result (self.new.spent ≡ false) }
        ensures spent { OnErr result (self.new.spent ≡ true) }
    {
        let mut acts = ShipActs::new(alloc);
        if self.phase != Phase::Going {
            return Ok(acts);
        }
        match self.begin(alloc, event, &mut acts) {
            Ok(()) => {
                self.spent = false;
                Ok(acts)
            }
            Err(fault) => {
                self.spent = true;
                Err(fault)
            }
        }
    }

    /// The first step writes Base before it takes its event.
    fn begin(
        &mut self,
        alloc: Global,
        event: LinkEvent,
        acts: &mut ShipActs,
    ) -> Result<(), NoMemory>
        ensures turn { OnOk result (Follows self.old self.new acts.old.items acts.new.items (ship_begins event)) }
    {
        if !self.begun {
            self.begun = true;
            acts.push(ShipAct::Write(base_octets(alloc, self.base)?))?;
        }
        self.meet(alloc, event, acts)
    }

    fn meet(&mut self, alloc: Global, event: LinkEvent, acts: &mut ShipActs) -> Result<(), NoMemory>
        ensures turn { OnOk result (Follows self.old self.new acts.old.items acts.new.items (ship_meets event)) }
    {
        match event {
            LinkEvent::Given(octets) => {
                self.kept.extend_from_slice(octets.as_slice())?;
                self.take_all(alloc, acts)
            }
            LinkEvent::Idle => self.idle(alloc, acts),
            LinkEvent::End => self.end_link(alloc, acts),
        }
    }

    fn take_all(&mut self, alloc: Global, acts: &mut ShipActs) -> Result<(), NoMemory>
        ensures turn { OnOk result (Follows self.old self.new acts.old.items acts.new.items ship_gains) }
    {
        for _step in 0..self.kept.len() {
            if !self.take_one(alloc, acts)? {
                break;
            }
        }
        Ok(())
    }

    /// Takes the message at the front, if it is whole; answers whether another may follow.
    fn take_one(&mut self, alloc: Global, acts: &mut ShipActs) -> Result<bool, NoMemory>
        ensures { IfOk result (λ more. TakesOne self.old self.new acts.old.items acts.new.items more) }
    {
        if self.phase != Phase::Going {
            return Ok(false);
        }
        match find(self.kept.as_slice()) {
            Found::Short => Ok(false),
            Found::Wrong => {
                self.end_link(alloc, acts)?;
                Ok(false)
            }
            Found::Whole(said, head, size) => {
                self.kept.advance(head);
                self.kept.advance(size);
                self.take(alloc, said, acts)?;
                Ok(true)
            }
        }
    }

    fn take(&mut self, alloc: Global, said: Said, acts: &mut ShipActs) -> Result<(), NoMemory>
        ensures turn { OnOk result ((body : List ℕ) → Follows self.old self.new acts.old.items acts.new.items (ship_takes (said_of said body))) }
    {
        match said {
            Said::Have(count) => self.take_have(alloc, count, acts),
            Said::Base(_) | Said::Send(_) | Said::End => self.end_link(alloc, acts),
        }
    }

    fn take_have(&mut self, alloc: Global, count: u64, acts: &mut ShipActs) -> Result<(), NoMemory>
        ensures turn { OnOk result (Follows self.old self.new acts.old.items acts.new.items (ship_takes (Messages.Have count))) }
    {
        if self.total < count {
            return self.end_link(alloc, acts);
        }
        self.quiet = 0;
        self.used = 0;
        self.have = count;
        if count < self.total {
            acts.push(ShipAct::SendAt(count))?;
            return Ok(());
        }
        self.phase = Phase::Finished;
        acts.push(ShipAct::Write(end_octets(alloc)?))?;
        acts.push(ShipAct::Done)?;
        Ok(())
    }

    fn idle(&mut self, alloc: Global, acts: &mut ShipActs) -> Result<(), NoMemory>
        ensures turn { OnOk result (Follows self.old self.new acts.old.items acts.new.items ship_idles) }
    {
        if self.quiet < 74 {
            self.quiet += 1;
            return Ok(());
        }
        self.end_link(alloc, acts)
    }

    /// One try is used.
    fn end_link(&mut self, alloc: Global, acts: &mut ShipActs) -> Result<(), NoMemory>
        ensures turn { OnOk result (Follows self.old self.new acts.old.items acts.new.items ship_ends) }
    {
        if self.used < self.tries.saturating_sub(1) {
            self.kept.clear();
            self.quiet = 0;
            self.used += 1;
            acts.push(ShipAct::Reopen)?;
            acts.push(ShipAct::Write(base_octets(alloc, self.base)?))?;
        } else {
            self.phase = Phase::GivenUp;
            acts.push(ShipAct::NoAnswer)?;
        }
        Ok(())
    }
}
