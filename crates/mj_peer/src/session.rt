//! A client's end but for its being spent.
ghost use Rattle.std.specs.Prelude.{◌≡◌, ◌++◌, ◌||◌, [], false, OnOk, IfOk};
ghost use Rattle.std.specs.List.{list_any};
ghost use Rattle.mj_peer.specs.ClientEndRules.{answers, fresh, gives, greets, happens, hears, is_its, meets, opens, quiets, reopens, request_acts};
ghost use Rattle.mj_peer.specs.ClientStands.{Follows, FollowsTo, Stands};
ghost use Rattle.mj_peer.specs.Sweeping;
ghost use Rattle.mj_peer.specs.Sweeping.{sweep};

use super::act::{Act, Acts};
use super::talk::Talk;
use super::text::{client_type, hello, is_same_version, reply_of, request_text};
use super::verdict::Verdict;
use mj_base::{Frames, Limits, LinkEvent, Name, NoMemory, Version};
use mj_client_cmd::ClientReply;
use mj_wire::{Wire, WireItem};
use std::alloc::Global;

/// What a client's end was told and has counted, and the reader of the present link's stream.
#[derive(Drop)]
pub struct Session {
    pub(crate) wire: Wire,
    /// Whether the broker's READY was read on this link.
    pub(crate) ready: bool,
    pub(crate) talk: Talk,
}

impl Session {
    pub(crate) fn new(
        alloc: Global,
        version: Version,
        service: Name,
        tries: u32,
        wait: u32,
    ) -> Result<Session, NoMemory>
        ensures stands { IfOk result (λ s. Stands s (fresh version service tries wait)) }
        ensures live { IfOk result (λ s. s.wire.spent ≡ false) }
    {
        Ok(Session {
            wire: Wire::new(alloc, &Limits::peer())?,
            ready: false,
            talk: Talk::new(version, service, tries, wait),
        })
    }

    /// A request's first try begins.
    pub(crate) fn open(
        &mut self,
        alloc: Global,
        body: &Frames,
        acts: &mut Acts,
    ) -> Result<(), NoMemory>
        requires { self.old.wire.spent ≡ false }
        ensures turn { OnOk result (Follows self.old self.new acts.old acts.new (opens body.now)) }
        ensures live { OnOk result (self.new.wire.spent ≡ false) }
    {
        if !self.talk.linked {
            self.greet(alloc, acts)?;
        }
        self.talk.open(body.copy()?);
        if self.ready {
            self.write_request(alloc, acts)?;
        }
        Ok(())
    }

    /// What the link gave.
    pub(crate) fn happen(
        &mut self,
        alloc: Global,
        event: &LinkEvent,
        acts: &mut Acts,
    ) -> Result<(), NoMemory>
        requires { self.old.wire.spent ≡ false }
        ensures turn { OnOk result (Follows self.old self.new acts.old acts.new (happens event.now)) }
        ensures live { OnOk result (self.new.wire.spent ≡ false) }
    {
        match event {
            LinkEvent::Given(piece) => self.take(alloc, piece.as_slice(), acts),
            LinkEvent::Idle => {
                self.quiet(alloc, false, acts)?;
                Ok(())
            }
            LinkEvent::End => {
                self.quiet(alloc, true, acts)?;
                Ok(())
            }
        }
    }

    fn take(&mut self, alloc: Global, piece: &[u8], acts: &mut Acts) -> Result<(), NoMemory>
        requires { self.old.wire.spent ≡ false }
        ensures turn { OnOk result (Follows self.old self.new acts.old acts.new (gives piece.now)) }
        ensures live { OnOk result (self.new.wire.spent ≡ false) }
    {
        let mut items = Vec::new(alloc);
        self.wire.feed(alloc, piece, &mut items)?;
        self.ready = either(self.ready, has_ready(items.as_slice()));
        self.meet_all(alloc, items.as_slice(), acts)
    }

    /// Meets these items, up to one behind which the link is another.
    fn meet_all(
        &mut self,
        alloc: Global,
        items: &[WireItem],
        acts: &mut Acts,
    ) -> Result<(), NoMemory>
        requires { self.old.wire.spent ≡ false }
        ensures turn { OnOk result (Follows self.old self.new acts.old acts.new (sweep meets items.now)) }
        ensures live { OnOk result (self.new.wire.spent ≡ false) }
    {
        for item in items {
            if self.meet(alloc, item, acts)? {
                return Ok(());
            }
        }
        Ok(())
    }

    /// Meets an item; answers whether what came on the link is at its end.
    fn meet(&mut self, alloc: Global, item: &WireItem, acts: &mut Acts) -> Result<bool, NoMemory>
        requires { self.old.wire.spent ≡ false }
        ensures turn { IfOk result (λ ended. FollowsTo ended self.old self.new acts.old acts.new (meets item.now)) }
        ensures live { OnOk result (self.new.wire.spent ≡ false) }
    {
        match item {
            WireItem::Accepted => Ok(false),
            WireItem::Ready(_) => {
                self.write_request(alloc, acts)?;
                Ok(false)
            }
            WireItem::Message(message) => {
                let reply = reply_of(alloc, message)?;
                self.hear(reply, acts)?;
                Ok(false)
            }
            WireItem::Ended(_, _) => self.quiet(alloc, true, acts),
        }
    }

    fn hear(&mut self, reply: Option<ClientReply>, acts: &mut Acts) -> Result<(), NoMemory>
        requires { self.old.wire.spent ≡ false }
        ensures turn { OnOk result (Follows self.old self.new acts.old acts.new (hears reply)) }
        ensures live { OnOk result (self.new.wire.spent ≡ false) }
    {
        let Some(reply) = reply else {
            return Ok(());
        };
        if !self.is_its(&reply) {
            return Ok(());
        }
        self.answer(reply.last, reply.body, acts)
    }

    /// Whether this is a reply to the open request.
    fn is_its(&self, reply: &ClientReply) -> bool
        ensures { result ≡ is_its self.now.talk reply.now }
    {
        self.talk.request.is_some()
            && is_same_version(reply.version, self.talk.version)
            && reply.service.as_slice() == self.talk.service.as_slice()
    }

    /// A reply to the open request, which the last one closes.
    fn answer(&mut self, last: bool, body: Frames, acts: &mut Acts) -> Result<(), NoMemory>
        requires { self.old.wire.spent ≡ false }
        ensures turn { OnOk result (Follows self.old self.new acts.old acts.new (answers last body)) }
        ensures live { OnOk result (self.new.wire.spent ≡ false) }
    {
        if !last {
            return acts.push(Act::Part(body));
        }
        self.talk.request = None;
        acts.push(Act::Done(body))
    }

    /// A quiet event; answers whether what came on the link is at its end.
    fn quiet(&mut self, alloc: Global, ended: bool, acts: &mut Acts) -> Result<bool, NoMemory>
        requires { self.old.wire.spent ≡ false }
        ensures turn { IfOk result (λ over. FollowsTo over self.old self.new acts.old acts.new (quiets ended)) }
        ensures live { OnOk result (self.new.wire.spent ≡ false) }
    {
        match self.talk.count_quiet(ended) {
            Verdict::Stay => Ok(false),
            Verdict::Again => {
                self.reopen(alloc, acts)?;
                Ok(true)
            }
            Verdict::Lost => {
                acts.push(Act::NoAnswer)?;
                Ok(true)
            }
        }
    }

    fn reopen(&mut self, alloc: Global, acts: &mut Acts) -> Result<(), NoMemory>
        ensures turn { OnOk result (Follows self.old self.new acts.old acts.new reopens) }
        ensures live { OnOk result (self.new.wire.spent ≡ false) }
    {
        self.wire = Wire::new(alloc, &Limits::peer())?;
        self.ready = false;
        self.talk.linked = true;
        acts.push(Act::Reopen)?;
        self.greet(alloc, acts)
    }

    fn greet(&self, alloc: Global, acts: &mut Acts) -> Result<(), NoMemory>
        ensures { OnOk result (acts.new ≡ acts.old ++ greets self.now.talk.version) }
    {
        let text = hello(alloc, client_type(self.talk.version))?;
        acts.push(Act::Write(text))
    }

    fn write_request(&self, alloc: Global, acts: &mut Acts) -> Result<(), NoMemory>
        ensures { OnOk result (acts.new ≡ acts.old ++ request_acts self.now.talk.request self.now.talk) }
    {
        let Some(body) = &self.talk.request else {
            return Ok(());
        };
        let text = request_text(alloc, self.talk.version, &self.talk.service, body)?;
        acts.push(Act::Write(text))
    }
}

/// Whether the broker's READY is among these items.
pub(crate) fn has_ready(items: &[WireItem]) -> bool
    ensures { result ≡ list_any Sweeping.is_ready_item items.now }
{
    items.iter().any(|item| is_ready_item(item))
}

fn is_ready_item(item: &WireItem) -> bool
    ensures { result ≡ Sweeping.is_ready_item item.now }
{
    match item {
        WireItem::Ready(_) => true,
        WireItem::Accepted | WireItem::Message(_) | WireItem::Ended(_, _) => false,
    }
}

pub(crate) fn either(a: bool, b: bool) -> bool
    ensures { result ≡ (a || b) }
{
    a || b
}
