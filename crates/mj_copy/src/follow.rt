//! The end that appends another store's commands to a file.
ghost use Rattle.std.specs.Prelude.{◌≡◌, ◌<◌, ◌≤◌, ◌+◌, ◌^◌, ◌++◌, ◌∷◌, [], ℕ, List, false, true, ◌&&◌, length, take, drop, OnOk, OnErr, IfOk};
ghost use Rattle.mj_copy.specs.Found.{IsWithin, said_of};
ghost use Rattle.mj_copy.specs.Messages;
ghost use Rattle.mj_copy.specs.FollowRules.{answers_have, follow_appended, follow_ends, follow_gains, follow_idles, follow_meets, follow_opened, follow_steps, follow_takes, goes_on, new_follow, takes_base};
ghost use Rattle.mj_copy.specs.FollowRules.{awaits_link};
ghost use Rattle.mj_copy.specs.ShipRules.{is_going};
ghost use Rattle.mj_copy.specs.FollowStands.{Follows, IsAppend, IsFile, IsTurn, MayStep, TakesOne, following_of, takes_front, takes_payload};

use super::awaits::Awaits;
use super::follow_act::{FollowAct, FollowActs};
use super::message::{Found, Said, find};
use super::phase::Phase;
use super::write::have_octets;
use bytes::BytesMut;
use mj_base::{LinkEvent, NoMemory, Octets};
use std::alloc::Global;

/// The bytes of a Send before its payload: the letter and the offset.
const SEND_BYTES: usize = 9;

/// The end that appends the commands. It says how many it has, takes the next one, and is done when the other end says
/// that there are no more. It gives up when its tries are used.
#[derive(Drop)]
pub struct Follow {
    tries: u32,
    /// What was read on this link and not yet taken.
    kept: BytesMut,
    quiet: u32,
    used: u32,
    /// Whether a Base was read on this link.
    based: bool,
    opened: bool,
    base: u64,
    count: u64,
    awaits: Awaits,
    phase: Phase,
    spent: bool,
}

impl Follow {
    /// An end whose file isn't opened yet. A try is used where the link ends, something unlawful is read, or nothing
    /// lawful comes in 75 reads of 100 ms; a lawful message gives all tries back.
    pub fn new(alloc: Global, tries: u32) -> Result<Follow, NoMemory>
        ensures fresh { IfOk result (λ end. following_of end ≡ new_follow tries) }
        ensures ready { IfOk result (λ end. end.spent ≡ false) }
    {
        Ok(Follow {
            tries,
            kept: BytesMut::with_capacity(alloc, 64)?,
            quiet: 0,
            used: 0,
            based: false,
            opened: false,
            base: 0,
            count: 0,
            awaits: Awaits::Link,
            phase: Phase::Going,
            spent: false,
        })
    }

    /// How many commands its file has, once that is opened; before, 0.
    pub fn count(&self) -> u64
        ensures { result ≡ (following_of self.now).count }
    {
        self.count
    }

    /// How far it has come.
    pub fn phase(&self) -> Phase
        ensures { result ≡ (following_of self.now).phase }
    {
        self.phase
    }

    /// What it waits for.
    pub fn awaits(&self) -> &Awaits
        ensures { result.now ≡ (following_of self.now).awaits }
    {
        &self.awaits
    }

    /// Whether memory ran out in an earlier call; then no other may follow.
    pub fn is_spent(&self) -> bool
        ensures { result ≡ self.now.spent }
    {
        self.spent
    }

    /// Takes one event, with the messages that are there, up to one that opens or appends. A payload that isn't appended
    /// is answered by the end of the link. Without memory the end is spent.
    pub fn step(&mut self, alloc: Global, event: LinkEvent) -> Result<FollowActs, NoMemory>
        requires live { self.old.spent ≡ false }
        requires waits { MayStep (following_of self.old).awaits event }
        ensures turn { IfOk result (λ acts. IsTurn self.new acts.items (follow_steps event (following_of self.old))) }
        ensures ready { OnOk result (self.new.spent ≡ false) }
        ensures spent { OnErr result (self.new.spent ≡ true) }
    {
        let mut acts = FollowActs::new(alloc);
        if self.phase != Phase::Going {
            return Ok(acts);
        }
        match self.meet(alloc, event, &mut acts) {
            Ok(()) => {
                self.spent = false;
                Ok(acts)
            }
            Err(fault) => {
                self.spent = true;
                Err(fault)
            }
        }
    }

    /// The file is open, and has so many commands. It goes on with what is left. Without memory the end is spent.
    pub fn opened(&mut self, alloc: Global, count: u64) -> Result<FollowActs, NoMemory>
        requires live { self.old.spent ≡ false }
        requires waits { IsFile (following_of self.old).awaits }
        requires few { count < 2 ^ 62 }
        ensures turn { IfOk result (λ acts. IsTurn self.new acts.items (follow_opened count (following_of self.old))) }
        ensures ready { OnOk result (self.new.spent ≡ false) }
        ensures spent { OnErr result (self.new.spent ≡ true) }
    {
        self.opened = true;
        self.count = count;
        self.continue_on(alloc)
    }

    /// The payload is appended. It goes on with what is left. Without memory the end is spent.
    pub fn appended(&mut self, alloc: Global) -> Result<FollowActs, NoMemory>
        requires live { self.old.spent ≡ false }
        requires waits { IsAppend (following_of self.old).awaits }
        requires few { (following_of self.old).count < 2 ^ 62 }
        ensures turn { IfOk result (λ acts. IsTurn self.new acts.items (follow_appended (following_of self.old))) }
        ensures ready { OnOk result (self.new.spent ≡ false) }
        ensures spent { OnErr result (self.new.spent ≡ true) }
    {
        self.count += 1;
        self.continue_on(alloc)
    }

    fn continue_on(&mut self, alloc: Global) -> Result<FollowActs, NoMemory>
        ensures turn { IfOk result (λ acts. IsTurn self.new acts.items (goes_on (following_of self.old))) }
        ensures ready { OnOk result (self.new.spent ≡ false) }
        ensures spent { OnErr result (self.new.spent ≡ true) }
    {
        let mut acts = FollowActs::new(alloc);
        match self.go_on(alloc, &mut acts) {
            Ok(()) => {
                self.spent = false;
                Ok(acts)
            }
            Err(fault) => {
                self.spent = true;
                Err(fault)
            }
        }
    }

    /// Says how many commands the file has, and goes on with what is left.
    fn go_on(&mut self, alloc: Global, acts: &mut FollowActs) -> Result<(), NoMemory>
        ensures turn { OnOk result (Follows self.old self.new acts.old.items acts.new.items goes_on) }
    {
        self.answer(alloc, acts)?;
        self.take_all(alloc, acts)
    }

    fn meet(
        &mut self,
        alloc: Global,
        event: LinkEvent,
        acts: &mut FollowActs,
    ) -> Result<(), NoMemory>
        ensures turn { OnOk result (Follows self.old self.new acts.old.items acts.new.items (follow_meets event)) }
    {
        match event {
            LinkEvent::Given(octets) => {
                self.kept.extend_from_slice(octets.as_slice())?;
                self.take_all(alloc, acts)
            }
            LinkEvent::Idle => self.idle(acts),
            LinkEvent::End => self.end_link(acts),
        }
    }

    fn take_all(&mut self, alloc: Global, acts: &mut FollowActs) -> Result<(), NoMemory>
        ensures turn { OnOk result (Follows self.old self.new acts.old.items acts.new.items follow_gains) }
    {
        for _step in 0..self.kept.len() {
            if !self.take_one(alloc, acts)? {
                break;
            }
        }
        Ok(())
    }

    /// Whether it is to take the next message.
    fn is_taking(&self) -> bool
        ensures { result ≡ (is_going (following_of self.now).phase && awaits_link (following_of self.now).awaits) }
    {
        self.phase == Phase::Going && matches!(self.awaits, Awaits::Link)
    }

    /// Takes the message at the front, if it is whole; answers whether another may follow.
    fn take_one(&mut self, alloc: Global, acts: &mut FollowActs) -> Result<bool, NoMemory>
        ensures { IfOk result (λ more. TakesOne self.old self.new acts.old.items acts.new.items more) }
    {
        if !self.is_taking() {
            return Ok(false);
        }
        match find(self.kept.as_slice()) {
            Found::Short => Ok(false),
            Found::Wrong => {
                self.end_link(acts)?;
                Ok(false)
            }
            Found::Whole(said, head, size) => {
                self.kept.advance(head);
                self.take_message(alloc, said, size, acts)?;
                Ok(true)
            }
        }
    }

    /// Takes a message whose body, of this size, stands at the front.
    fn take_message(
        &mut self,
        alloc: Global,
        said: Said,
        size: usize,
        acts: &mut FollowActs,
    ) -> Result<(), NoMemory>
        requires { size ≤ length self.old.kept.items }
        ensures turn { OnOk result (Follows self.old self.new acts.old.items acts.new.items (takes_front (said_of said (take size self.old.kept.items)) size)) }
    {
        match said {
            Said::Base(base) => {
                self.kept.advance(size);
                self.take_base(alloc, base, acts)
            }
            Said::Send(at) => self.take_send(alloc, at, size, acts),
            Said::End => {
                self.kept.advance(size);
                self.take_end(acts)
            }
            Said::Have(_) => {
                self.kept.advance(size);
                self.end_link(acts)
            }
        }
    }

    fn take_base(&mut self, alloc: Global, base: u64, acts: &mut FollowActs) -> Result<(), NoMemory>
        ensures turn { OnOk result (Follows self.old self.new acts.old.items acts.new.items (takes_base base)) }
    {
        if !self.opened {
            self.base = base;
            self.awaits = Awaits::File(base);
            acts.push(FollowAct::Open(base))?;
            return Ok(());
        }
        if base != self.base {
            return self.end_link(acts);
        }
        self.answer(alloc, acts)
    }

    /// Takes a Send whose body, of this size, stands at the front.
    fn take_send(
        &mut self,
        alloc: Global,
        at: u64,
        size: usize,
        acts: &mut FollowActs,
    ) -> Result<(), NoMemory>
        requires { size ≤ length self.old.kept.items }
        ensures turn { OnOk result (Follows self.old self.new acts.old.items acts.new.items (takes_front (Messages.Send at (drop 9 (take size self.old.kept.items))) size)) }
    {
        if self.based && at == self.count {
            return self.take_payload(alloc, size, acts);
        }
        self.kept.advance(size);
        if self.based && at < self.count {
            return self.answer(alloc, acts);
        }
        self.end_link(acts)
    }

    /// Takes the payload of a body of this size, which stands at the front.
    fn take_payload(
        &mut self,
        alloc: Global,
        size: usize,
        acts: &mut FollowActs,
    ) -> Result<(), NoMemory>
        requires { size ≤ length self.old.kept.items }
        ensures turn { OnOk result (Follows self.old self.new acts.old.items acts.new.items (takes_payload (drop 9 (take size self.old.kept.items)) size)) }
    {
        let body = self.kept.as_slice().split_at(size).0;
        let payload = payload_of(body);
        let handed = Octets::copy_of(alloc, payload)?;
        self.awaits = Awaits::Append(Octets::copy_of(alloc, payload)?);
        self.kept.advance(size);
        acts.push(FollowAct::Append(handed))?;
        Ok(())
    }

    fn take_end(&mut self, acts: &mut FollowActs) -> Result<(), NoMemory>
        ensures turn { OnOk result (Follows self.old self.new acts.old.items acts.new.items (follow_takes Messages.End)) }
    {
        if !self.based {
            return self.end_link(acts);
        }
        self.phase = Phase::Finished;
        self.quiet = 0;
        self.used = 0;
        acts.push(FollowAct::Done)?;
        Ok(())
    }

    /// After a lawful message: how many commands the file has.
    fn answer(&mut self, alloc: Global, acts: &mut FollowActs) -> Result<(), NoMemory>
        ensures turn { OnOk result (Follows self.old self.new acts.old.items acts.new.items answers_have) }
    {
        self.quiet = 0;
        self.used = 0;
        self.based = true;
        self.awaits = Awaits::Link;
        acts.push(FollowAct::Write(have_octets(alloc, self.count)?))?;
        Ok(())
    }

    fn idle(&mut self, acts: &mut FollowActs) -> Result<(), NoMemory>
        ensures turn { OnOk result (Follows self.old self.new acts.old.items acts.new.items follow_idles) }
    {
        if self.quiet < 74 {
            self.quiet += 1;
            return Ok(());
        }
        self.end_link(acts)
    }

    /// One try is used.
    fn end_link(&mut self, acts: &mut FollowActs) -> Result<(), NoMemory>
        ensures turn { OnOk result (Follows self.old self.new acts.old.items acts.new.items follow_ends) }
    {
        self.awaits = Awaits::Link;
        if self.used < self.tries.saturating_sub(1) {
            self.kept.clear();
            self.quiet = 0;
            self.used += 1;
            self.based = false;
            acts.push(FollowAct::Reopen)?;
        } else {
            self.phase = Phase::GivenUp;
            acts.push(FollowAct::NoAnswer)?;
        }
        Ok(())
    }
}

/// What stands behind the letter and the offset of a Send.
fn payload_of(body: &[u8]) -> &[u8]
    ensures { result.now ≡ drop 9 body.now }
{
    if body.len() < SEND_BYTES {
        return &[];
    }
    body.split_at(SEND_BYTES).1
}
