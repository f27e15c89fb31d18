//! A bridge but for its being spent: the acts of its two sides, call by call.
ghost use Rattle.std.specs.Prelude.{◌≡◌, ◌≤◌, ◌++◌, true, map, OnOk, IfOk};
ghost use Rattle.mj_bridge.specs.BridgeRules.{Bridge as ABridge, answered, ends, far_act, far_acts, far_turn, fresh, gives, gives_up, goes_on, meets, meets_all, moves, near_happens, near_turn, requested};
ghost use Rattle.mj_bridge.specs.BridgeStands.{Follows, FollowsTo, HandsOut, Holds, IsLive, Meets, Opens, PassesOn, Stands};
ghost use Rattle.mj_bridge.specs.declared.act.BridgeAct.TheVariants as Side;
ghost use Rattle.mj_peer.specs.ClientEndRules.{steps};
ghost use Rattle.mj_peer.specs.WorkerEndRules.{greets, quiets, rests, serves};

use super::act::{BridgeAct, BridgeActs};
use mj_base::{Frames, LinkEvent, Name, NoMemory, Octets, Version};
use mj_peer::{Act, Acts, ClientEnd, Handed, Post};
use mj_wire::WireItem;
use std::alloc::Global;

/// The two ends of a bridge, and what is to be answered.
#[derive(Drop)]
pub struct Deck {
    pub(crate) near: Post,
    pub(crate) far: ClientEnd,
    /// The address of the open REQUEST, and whether the near link is still the one that it came on.
    pub(crate) held: Option<Octets>,
    pub(crate) here: bool,
    /// The REQUEST of the present near link that is kept for afterwards.
    pub(crate) next: Option<Handed>,
}

impl Deck {
    pub(crate) fn new(
        alloc: Global,
        service: Name,
        remote: Name,
        tries: u32,
        wait: u32,
        count: u64,
    ) -> Result<Deck, NoMemory>
        requires tries { 1 ≤ tries }
        requires wait { 1 ≤ wait }
        ensures stands { IfOk result (λ deck. Stands deck (fresh service remote tries wait count)) }
        ensures live { IfOk result (λ deck. IsLive deck) }
    {
        Ok(Deck {
            near: Post::new(alloc, Version::One, service, tries, 0, count)?,
            far: ClientEnd::new(alloc, Version::One, remote, tries, wait)?,
            held: None,
            here: false,
            next: None,
        })
    }

    /// Whether there are no acts any more.
    pub(crate) fn is_over(&self) -> bool
        ensures { result ≡ self.now.near.duty.over }
    {
        self.near.is_over()
    }

    /// The near link begins.
    pub(crate) fn greet(&mut self, alloc: Global, out: &mut BridgeActs) -> Result<(), NoMemory>
        requires { IsLive self.old }
        ensures turn { OnOk result (Follows self.old self.new out.old out.new (λ b. near_turn (b.near, greets) b)) }
        ensures live { OnOk result (IsLive self.new) }
    {
        let mut acts = Acts::new(alloc);
        self.near.greet(alloc, &mut acts)?;
        self.hand_near(acts, out)
    }

    /// What the near link gave.
    pub(crate) fn near_happen(
        &mut self,
        alloc: Global,
        event: &LinkEvent,
        out: &mut BridgeActs,
    ) -> Result<(), NoMemory>
        requires { IsLive self.old }
        ensures turn { OnOk result (Follows self.old self.new out.old out.new (near_happens event.now)) }
        ensures live { OnOk result (IsLive self.new) }
    {
        match event {
            LinkEvent::Given(piece) => self.give(alloc, piece.as_slice(), out),
            LinkEvent::Idle => self.rest(alloc, out),
            LinkEvent::End => self.end(alloc, out),
        }
    }

    /// The near link gave these bytes.
    fn give(&mut self, alloc: Global, piece: &[u8], out: &mut BridgeActs) -> Result<(), NoMemory>
        requires { IsLive self.old }
        ensures turn { OnOk result (Follows self.old self.new out.old out.new (gives piece.now)) }
        ensures live { OnOk result (IsLive self.new) }
    {
        let items = self.near.take(alloc, piece)?;
        self.meet_all(alloc, items.as_slice(), out)
    }

    /// The near link gave nothing.
    fn rest(&mut self, alloc: Global, out: &mut BridgeActs) -> Result<(), NoMemory>
        requires { IsLive self.old }
        ensures turn { OnOk result (Follows self.old self.new out.old out.new (λ b. near_turn (rests b.near) b)) }
        ensures live { OnOk result (IsLive self.new) }
    {
        let mut acts = Acts::new(alloc);
        self.near.rest(alloc, &mut acts)?;
        self.hand_near(acts, out)
    }

    /// The near link ended.
    fn end(&mut self, alloc: Global, out: &mut BridgeActs) -> Result<(), NoMemory>
        requires { IsLive self.old }
        ensures turn { OnOk result (Follows self.old self.new out.old out.new (λ b. near_turn (quiets true b.near) b)) }
        ensures live { OnOk result (IsLive self.new) }
    {
        let mut acts = Acts::new(alloc);
        self.near.quiet(alloc, true, &mut acts)?;
        self.hand_near(acts, out)
    }

    /// Meets these items of the near link, up to one behind which the link is another.
    fn meet_all(
        &mut self,
        alloc: Global,
        items: &[WireItem],
        out: &mut BridgeActs,
    ) -> Result<(), NoMemory>
        requires { IsLive self.old }
        ensures turn { OnOk result (Follows self.old self.new out.old out.new (meets_all items.now)) }
        ensures live { OnOk result (IsLive self.new) }
    {
        for item in items {
            if self.meet(alloc, item, out)? {
                return Ok(());
            }
        }
        Ok(())
    }

    /// Meets an item of the near link; answers whether what came on the link is at its end.
    fn meet(
        &mut self,
        alloc: Global,
        item: &WireItem,
        out: &mut BridgeActs,
    ) -> Result<bool, NoMemory>
        requires { IsLive self.old }
        ensures turn { IfOk result (λ ended. FollowsTo ended self.old self.new out.old out.new (meets item.now) (ends item.now)) }
        ensures live { OnOk result (IsLive self.new) }
    {
        match self.near.request_in(alloc, item)? {
            Some(handed) => {
                self.take_request(alloc, handed, out)?;
                Ok(false)
            }
            None => self.meet_other(alloc, item, out),
        }
    }

    /// Meets an item of the near link that is no REQUEST.
    fn meet_other(
        &mut self,
        alloc: Global,
        item: &WireItem,
        out: &mut BridgeActs,
    ) -> Result<bool, NoMemory>
        requires { IsLive self.old }
        ensures turn { IfOk result (λ ended. Meets ended self.old self.new out.old out.new item.now) }
        ensures live { OnOk result (IsLive self.new) }
    {
        let mut acts = Acts::new(alloc);
        let ended = self.near.meet(alloc, item, &mut acts)?;
        self.hand_near(acts, out)?;
        Ok(ended)
    }

    /// A near REQUEST: it is asked far, kept for afterwards, or dropped.
    fn take_request(
        &mut self,
        alloc: Global,
        handed: Handed,
        out: &mut BridgeActs,
    ) -> Result<(), NoMemory>
        requires { IsLive self.old }
        ensures turn { OnOk result (Follows self.old self.new out.old out.new (requested handed)) }
        ensures live { OnOk result (IsLive self.new) }
    {
        self.near.hear();
        if self.held.is_none() {
            return self.open(alloc, handed, out);
        }
        if self.next.is_none() && !self.here {
            self.next = Some(handed);
        }
        Ok(())
    }

    /// Asks this REQUEST far, where none is open.
    fn open(&mut self, alloc: Global, handed: Handed, out: &mut BridgeActs) -> Result<(), NoMemory>
        requires { IsLive self.old }
        ensures turn { OnOk result (Opens self.old self.new out.old out.new handed) }
        ensures live { OnOk result (IsLive self.new) }
    {
        if self.far.is_asking() {
            return Ok(());
        }
        let acts = self.far.ask(alloc, &handed.body)?;
        self.held = Some(handed.address);
        self.here = true;
        self.next = None;
        hand_far(acts, out)
    }

    /// What the far link gave.
    pub(crate) fn far_happen(
        &mut self,
        alloc: Global,
        event: LinkEvent,
        out: &mut BridgeActs,
    ) -> Result<(), NoMemory>
        requires { IsLive self.old }
        ensures turn { OnOk result (Follows self.old self.new out.old out.new (λ b. far_turn (steps event b.far) b)) }
        ensures live { OnOk result (IsLive self.new) }
    {
        let acts = self.far.step(alloc, event)?;
        self.pass_all(alloc, acts, out)?;
        self.go_on(alloc, out)
    }

    /// Opens the REQUEST that was kept, where none is open.
    fn go_on(&mut self, alloc: Global, out: &mut BridgeActs) -> Result<(), NoMemory>
        requires { IsLive self.old }
        ensures turn { OnOk result (Follows self.old self.new out.old out.new goes_on) }
        ensures live { OnOk result (IsLive self.new) }
    {
        if self.near.is_over() || self.held.is_some() {
            return Ok(());
        }
        match self.next.take() {
            Some(handed) => self.open(alloc, handed, out),
            None => Ok(()),
        }
    }

    /// The far side's acts, in their order, until there are none any more.
    fn pass_all(&mut self, alloc: Global, acts: Acts, out: &mut BridgeActs) -> Result<(), NoMemory>
        requires { IsLive self.old }
        ensures turn { OnOk result (PassesOn self.old self.new out.old out.new (far_acts acts)) }
        ensures live { OnOk result (IsLive self.new) }
    {
        for act in acts.into_vec() {
            self.pass(alloc, act, out)?;
            if self.near.is_over() {
                return Ok(());
            }
        }
        Ok(())
    }

    /// An act of the far side: handed out, or a reply to the open REQUEST, or the end.
    fn pass(&mut self, alloc: Global, act: Act, out: &mut BridgeActs) -> Result<(), NoMemory>
        requires { IsLive self.old }
        ensures turn { OnOk result (PassesOn self.old self.new out.old out.new (far_act act)) }
        ensures live { OnOk result (IsLive self.new) }
    {
        match act {
            Act::Write(text) => out.push(BridgeAct::Far(Act::Write(text))),
            Act::Reopen => out.push(BridgeAct::Far(Act::Reopen)),
            Act::Done(body) => self.reply(alloc, &body, out),
            Act::NoAnswer => self.give_up(alloc, out),
            Act::Part(_) | Act::Served | Act::Finished => Ok(()),
        }
    }

    /// The far end's answer to the open REQUEST; it is written near where the near link is still the REQUEST's.
    fn reply(&mut self, alloc: Global, body: &Frames, out: &mut BridgeActs) -> Result<(), NoMemory>
        requires { IsLive self.old }
        ensures turn { OnOk result (PassesOn self.old self.new out.old out.new (λ b. answered b.held body.now b)) }
        ensures live { OnOk result (IsLive self.new) }
    {
        let Some(address) = self.held.take() else {
            return Ok(());
        };
        if !self.here {
            return Ok(());
        }
        self.answer(alloc, &address, body, out)
    }

    /// Writes this answer near.
    fn answer(
        &mut self,
        alloc: Global,
        address: &Octets,
        body: &Frames,
        out: &mut BridgeActs,
    ) -> Result<(), NoMemory>
        requires { IsLive self.old }
        ensures turn { OnOk result (PassesOn self.old self.new out.old out.new (λ b. near_turn (serves address.now body.now b.near) b)) }
        ensures live { OnOk result (IsLive self.new) }
    {
        let mut acts = Acts::new(alloc);
        self.near.answer(alloc, address, body, &mut acts)?;
        self.hand_near(acts, out)
    }

    /// The far end has given up: the bridge leaves the near broker.
    fn give_up(&mut self, alloc: Global, out: &mut BridgeActs) -> Result<(), NoMemory>
        requires { IsLive self.old }
        ensures turn { OnOk result (PassesOn self.old self.new out.old out.new gives_up) }
        ensures live { OnOk result (IsLive self.new) }
    {
        let text = self.near.leave(alloc)?;
        out.push(BridgeAct::Near(Act::Write(text)))?;
        out.push(BridgeAct::Far(Act::NoAnswer))
    }

    /// Hands out acts of the near side.
    fn hand_near(&mut self, acts: Acts, out: &mut BridgeActs) -> Result<(), NoMemory>
        ensures { OnOk result (HandsOut self.old self.new out.old out.new acts) }
    {
        for act in acts.into_vec() {
            self.follow(&act);
            out.push(BridgeAct::Near(act))?;
        }
        Ok(())
    }

    /// Behind a Reopen the near link is another: the open REQUEST isn't its own, and the one that was kept is forgotten.
    fn follow(&mut self, act: &Act)
        ensures holds { (b : ABridge) → Holds self.old b → Holds self.new (moves act.now b) }
        ensures ends { (self.new.near ≡ self.old.near) × (self.new.far ≡ self.old.far) }
    {
        match act {
            Act::Reopen => {
                self.here = false;
                self.next = None;
            }
            Act::Write(_)
            | Act::Part(_)
            | Act::Done(_)
            | Act::Served
            | Act::Finished
            | Act::NoAnswer => {}
        }
    }
}

/// Hands out acts of the far side.
fn hand_far(acts: Acts, out: &mut BridgeActs) -> Result<(), NoMemory>
    ensures { OnOk result (out.new ≡ out.old ++ map Side.Far acts) }
{
    for act in acts.into_vec() {
        out.push(BridgeAct::Far(act))?;
    }
    Ok(())
}
