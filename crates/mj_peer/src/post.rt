//! A worker's end but for its being spent, item by item.
ghost use Rattle.std.specs.Prelude.{◌≡◌, ◌≤◌, ◌++◌, [], false, replicate, OnOk, IfOk};
ghost use Rattle.mj_peer.specs.PeerTexts;
ghost use Rattle.mj_peer.specs.PeerTexts.{MaySay};
ghost use Rattle.mj_peer.specs.Sweeping.{beyond, sweep};
ghost use Rattle.mj_peer.specs.WorkerEndRules;
ghost use Rattle.mj_peer.specs.WorkerEndRules.{Worker, finishing, fresh, greets, happens, hearing, hears, idling, leaving, meets, obeys, partials, quiets, registers, reopens, rests, serves, takes};
ghost use Rattle.mj_peer.specs.WorkerStands.{Follows, FollowsTo, Stands};
ghost use Rattle.mj_peer.specs.declared.act.Act.TheVariants as AnAct;
ghost use Rattle.mj_worker_cmd.specs.declared.command.WorkerAct.TheVariants as AWorkerAct;

use super::act::{Act, Acts};
use super::duty::Duty;
use super::session::{either, has_ready};
use super::text::{hello, is_same_version, order_of, said_text};
use super::verdict::Verdict;
use mj_base::{Frames, Limits, LinkEvent, Name, NoMemory, Octets, Version};
use mj_handshake::SocketType;
use mj_wire::{Wire, WireItem};
use mj_worker_cmd::{Order, OrderAct, WorkerAct};
use std::alloc::Global;

/// A worker as one sees it who takes its items one by one and may answer a REQUEST later: what it was told and has
/// counted, and the reader of the present link's stream.
#[derive(Drop)]
pub struct Post {
    pub(crate) wire: Wire,
    /// Whether the broker's READY was read on this link.
    pub(crate) ready: bool,
    /// The idle events since the worker's READY, counted anew behind each 25th.
    pub(crate) beat: u32,
    pub(crate) duty: Duty,
}

/// A REQUEST: the address that its answer goes to, and its body.
#[derive(Drop)]
pub struct Handed {
    pub address: Octets,
    pub body: Frames,
}

impl Post {
    pub fn new(
        alloc: Global,
        version: Version,
        service: Name,
        tries: u32,
        parts: u32,
        count: u64,
    ) -> Result<Post, NoMemory>
        requires { 1 ≤ tries }
        ensures stands { IfOk result (λ post. Stands post (fresh version service tries parts count)) }
        ensures live { IfOk result (λ post. post.wire.spent ≡ false) }
    {
        Ok(Post {
            wire: Wire::new(alloc, &Limits::peer())?,
            ready: false,
            beat: 0,
            duty: Duty::new(version, service, tries, parts, count),
        })
    }

    /// The link begins.
    pub fn greet(&self, alloc: Global, acts: &mut Acts) -> Result<(), NoMemory>
        ensures { OnOk result (acts.new ≡ acts.old ++ greets) }
    {
        let text = hello(alloc, SocketType::Dealer)?;
        acts.push(Act::Write(text))
    }

    /// What the link gave, met as a worker meets it that answers at once.
    pub fn happen(
        &mut self,
        alloc: Global,
        event: &LinkEvent,
        acts: &mut Acts,
    ) -> Result<(), NoMemory>
        requires { self.old.wire.spent ≡ false }
        ensures turn { OnOk result (Follows self.old self.new acts.old acts.new (happens event.now)) }
        ensures live { OnOk result (self.new.wire.spent ≡ false) }
    {
        match event {
            LinkEvent::Given(piece) => {
                let items = self.take(alloc, piece.as_slice())?;
                self.meet_all(alloc, items.as_slice(), acts)
            }
            LinkEvent::Idle => {
                self.rest(alloc, acts)?;
                Ok(())
            }
            LinkEvent::End => {
                self.quiet(alloc, true, acts)?;
                Ok(())
            }
        }
    }

    /// Takes the next piece of the link's stream; answers the items that it completes, which are to be met one by one
    /// up to one behind which the link is another.
    pub fn take(&mut self, alloc: Global, piece: &[u8]) -> Result<Vec<WireItem>, NoMemory>
        requires { self.old.wire.spent ≡ false }
        ensures stands { OnOk result ((w : Worker) → Stands self.old w → Stands self.new (takes piece.now w)) }
        ensures items { IfOk result (λ items. (w : Worker) → Stands self.old w → items.items ≡ beyond w.stream piece.now) }
        ensures live { OnOk result (self.new.wire.spent ≡ false) }
    {
        let mut items = Vec::new(alloc);
        self.wire.feed(alloc, piece, &mut items)?;
        self.ready = either(self.ready, has_ready(items.as_slice()));
        Ok(items)
    }

    /// Meets these items, up to one behind which the link is another.
    fn meet_all(
        &mut self,
        alloc: Global,
        items: &[WireItem],
        acts: &mut Acts,
    ) -> Result<(), NoMemory>
        requires { self.old.wire.spent ≡ false }
        ensures turn { OnOk result (Follows self.old self.new acts.old acts.new (sweep meets items.now)) }
        ensures live { OnOk result (self.new.wire.spent ≡ false) }
    {
        for item in items {
            if self.meet(alloc, item, acts)? {
                return Ok(());
            }
        }
        Ok(())
    }

    /// Meets an item as a worker does that answers at once; answers whether what came on the link is at its end.
    pub fn meet(
        &mut self,
        alloc: Global,
        item: &WireItem,
        acts: &mut Acts,
    ) -> Result<bool, NoMemory>
        requires { self.old.wire.spent ≡ false }
        ensures turn { IfOk result (λ ended. FollowsTo ended self.old self.new acts.old acts.new (meets item.now)) }
        ensures live { OnOk result (self.new.wire.spent ≡ false) }
    {
        match item {
            WireItem::Accepted => Ok(false),
            WireItem::Ready(_) => {
                self.register(alloc, acts)?;
                Ok(false)
            }
            WireItem::Message(message) => {
                let order = order_of(alloc, message)?;
                self.listen(alloc, order, acts)
            }
            WireItem::Ended(_, _) => self.quiet(alloc, true, acts),
        }
    }

    /// The REQUEST of the worker's version that this item is, or None where it is none.
    pub fn request_in(&self, alloc: Global, item: &WireItem) -> Result<Option<Handed>, NoMemory>
        ensures { IfOk result (λ handed. handed ≡ WorkerEndRules.request_in self.now.duty.version item.now) }
    {
        let WireItem::Message(message) = item else {
            return Ok(None);
        };
        let order = order_of(alloc, message)?;
        Ok(request_by(self.duty.version, order))
    }

    /// A REQUEST of the worker's version came, which is answered later.
    pub fn hear(&mut self)
        ensures stands { (w : Worker) → Stands self.old w → Stands self.new (hearing w) }
        ensures live { self.new.wire ≡ self.old.wire }
    {
        self.duty.hear();
    }

    /// Answers a REQUEST; answers whether it was the last one, so that what comes on the link is at its end.
    pub fn answer(
        &mut self,
        alloc: Global,
        address: &Octets,
        body: &Frames,
        acts: &mut Acts,
    ) -> Result<bool, NoMemory>
        requires { self.old.wire.spent ≡ false }
        ensures turn { IfOk result (λ ended. FollowsTo ended self.old self.new acts.old acts.new (serves address.now body.now)) }
        ensures live { OnOk result (self.new.wire.spent ≡ false) }
    {
        self.answer_parts(alloc, address, body, acts)?;
        let text = self.reply(alloc, true, address, body)?;
        acts.push(Act::Write(text))?;
        acts.push(Act::Served)?;
        self.duty.count_served();
        self.finish(alloc, acts)
    }

    /// Leaves, whatever was to come; answers the DISCONNECT that says so.
    pub fn leave(&mut self, alloc: Global) -> Result<Octets, NoMemory>
        ensures text { IfOk result (λ text. text ≡ PeerTexts.said_text self.old.duty.version AWorkerAct.Disconnect) }
        ensures stands { (w : Worker) → Stands self.old w → Stands self.new (leaving w) }
        ensures live { self.new.wire ≡ self.old.wire }
    {
        self.duty.over = true;
        said_text(alloc, self.duty.version, WorkerAct::Disconnect)
    }

    /// The link gave nothing; answers whether what came on the link is at its end.
    pub fn rest(&mut self, alloc: Global, acts: &mut Acts) -> Result<bool, NoMemory>
        requires { self.old.wire.spent ≡ false }
        ensures turn { IfOk result (λ over. FollowsTo over self.old self.new acts.old acts.new rests) }
        ensures live { OnOk result (self.new.wire.spent ≡ false) }
    {
        match self.duty.count_quiet(false) {
            Verdict::Stay => {
                self.beat(alloc, acts)?;
                Ok(false)
            }
            Verdict::Again => {
                self.reopen(alloc, acts)?;
                Ok(true)
            }
            Verdict::Lost => {
                acts.push(Act::NoAnswer)?;
                Ok(true)
            }
        }
    }

    /// A quiet event that isn't `Idle`, or is none that counts for HEARTBEAT; answers whether what came on the link is at its end.
    pub fn quiet(&mut self, alloc: Global, ended: bool, acts: &mut Acts) -> Result<bool, NoMemory>
        requires { self.old.wire.spent ≡ false }
        ensures turn { IfOk result (λ over. FollowsTo over self.old self.new acts.old acts.new (quiets ended)) }
        ensures live { OnOk result (self.new.wire.spent ≡ false) }
    {
        match self.duty.count_quiet(ended) {
            Verdict::Stay => Ok(false),
            Verdict::Again => {
                self.reopen(alloc, acts)?;
                Ok(true)
            }
            Verdict::Lost => {
                acts.push(Act::NoAnswer)?;
                Ok(true)
            }
        }
    }

    fn listen(
        &mut self,
        alloc: Global,
        order: Option<Order>,
        acts: &mut Acts,
    ) -> Result<bool, NoMemory>
        requires { self.old.wire.spent ≡ false }
        ensures turn { IfOk result (λ ended. FollowsTo ended self.old self.new acts.old acts.new (hears order)) }
        ensures live { OnOk result (self.new.wire.spent ≡ false) }
    {
        let Some(order) = order else {
            return Ok(false);
        };
        if !is_same_version(order.version, self.duty.version) {
            return Ok(false);
        }
        self.obey(alloc, order.act, acts)
    }

    fn obey(&mut self, alloc: Global, act: OrderAct, acts: &mut Acts) -> Result<bool, NoMemory>
        requires { self.old.wire.spent ≡ false }
        ensures turn { IfOk result (λ ended. FollowsTo ended self.old self.new acts.old acts.new (obeys act)) }
        ensures live { OnOk result (self.new.wire.spent ≡ false) }
    {
        match act {
            OrderAct::Request { address, body } => {
                self.duty.hear();
                self.answer(alloc, &address, &body, acts)
            }
            OrderAct::Heartbeat => {
                self.duty.hear();
                Ok(false)
            }
            OrderAct::Disconnect => self.quiet(alloc, true, acts),
        }
    }

    /// Leaves where as many requests were answered as were to be.
    fn finish(&mut self, alloc: Global, acts: &mut Acts) -> Result<bool, NoMemory>
        requires { self.old.wire.spent ≡ false }
        ensures turn { IfOk result (λ ended. FollowsTo ended self.old self.new acts.old acts.new finishing) }
        ensures live { OnOk result (self.new.wire.spent ≡ false) }
    {
        if !self.duty.is_finished() {
            return Ok(false);
        }
        self.duty.over = true;
        let text = said_text(alloc, self.duty.version, WorkerAct::Disconnect)?;
        acts.push(Act::Write(text))?;
        acts.push(Act::Finished)?;
        Ok(true)
    }

    fn reopen(&mut self, alloc: Global, acts: &mut Acts) -> Result<(), NoMemory>
        ensures turn { OnOk result (Follows self.old self.new acts.old acts.new reopens) }
        ensures live { OnOk result (self.new.wire.spent ≡ false) }
    {
        self.wire = Wire::new(alloc, &Limits::peer())?;
        self.ready = false;
        self.beat = 0;
        acts.push(Act::Reopen)?;
        self.greet(alloc, acts)
    }

    /// The worker's READY.
    fn register(&self, alloc: Global, acts: &mut Acts) -> Result<(), NoMemory>
        ensures { OnOk result (acts.new ≡ acts.old ++ registers self.now.duty) }
    {
        let act = WorkerAct::Ready(self.duty.service.copy());
        let text = said_text(alloc, self.duty.version, act)?;
        acts.push(Act::Write(text))
    }

    /// An idle event that ends no try.
    fn beat(&mut self, alloc: Global, acts: &mut Acts) -> Result<(), NoMemory>
        requires { self.old.wire.spent ≡ false }
        ensures turn { OnOk result (Follows self.old self.new acts.old acts.new idling) }
        ensures live { OnOk result (self.new.wire.spent ≡ false) }
    {
        if !self.ready {
            return Ok(());
        }
        if self.beat < BEAT - 1 {
            self.beat += 1;
            return Ok(());
        }
        self.beat = 0;
        let text = said_text(alloc, self.duty.version, WorkerAct::Heartbeat)?;
        acts.push(Act::Write(text))
    }

    /// The partial replies, which only 0.2 has.
    fn answer_parts(
        &self,
        alloc: Global,
        address: &Octets,
        body: &Frames,
        acts: &mut Acts,
    ) -> Result<(), NoMemory>
        ensures { OnOk result (acts.new ≡ acts.old ++ partials self.now.duty.version self.now.duty.parts address.now body.now) }
    {
        match self.duty.version {
            Version::One => Ok(()),
            Version::Two => self.answer_each_part(alloc, address, body, acts),
        }
    }

    fn answer_each_part(
        &self,
        alloc: Global,
        address: &Octets,
        body: &Frames,
        acts: &mut Acts,
    ) -> Result<(), NoMemory>
        requires { self.now.duty.version ≡ Version.Two }
        ensures { OnOk result (acts.new ≡ acts.old ++ replicate self.now.duty.parts (WorkerEndRules.answer Version.Two false address.now body.now)) }
    {
        for _part in 0..self.duty.parts {
            let text = self.reply(alloc, false, address, body)?;
            acts.push(Act::Write(text))?;
        }
        Ok(())
    }

    fn reply(
        &self,
        alloc: Global,
        last: bool,
        address: &Octets,
        body: &Frames,
    ) -> Result<Octets, NoMemory>
        requires { MaySay (AWorkerAct.Reply last address.now body.now) self.now.duty.version }
        ensures { IfOk result (λ text. AnAct.Write text ≡ WorkerEndRules.answer self.now.duty.version last address.now body.now) }
    {
        let act = WorkerAct::Reply {
            last,
            address: Octets::copy_of(alloc, address.as_slice())?,
            body: body.copy()?,
        };
        said_text(alloc, self.duty.version, act)
    }

    /// Whether it has left or given up.
    pub fn is_over(&self) -> bool
        ensures { result ≡ self.now.duty.over }
    {
        self.duty.over
    }

    /// How many requests were answered.
    pub fn served(&self) -> u64
        ensures { result ≡ self.now.duty.served }
    {
        self.duty.served
    }
}

/// Each so manieth idle event writes HEARTBEAT.
const BEAT: u32 = 25;

fn request_by(version: Version, order: Option<Order>) -> Option<Handed>
    ensures { result ≡ WorkerEndRules.request_by version order }
{
    let order = order?;
    if !is_same_version(order.version, version) {
        return None;
    }
    match order.act {
        OrderAct::Request { address, body } => Some(Handed { address, body }),
        OrderAct::Heartbeat | OrderAct::Disconnect => None,
    }
}
