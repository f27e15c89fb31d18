//! What an audit keeps of the events so far.
ghost use Rattle.std.specs.Prelude.{◌≡◌, ◌++◌, ◌∷◌, ◌&&◌, [], true, false, None, List, length, nat_lt, is_some, OnOk};
ghost use Rattle.std.specs.List.{list_any};
ghost use Rattle.mj_ledger.specs.Dues.{waits_for_of};
ghost use Rattle.mj_ledger.specs.Events.{Event, Opened, Asked, Ready, Replied, Given, Answered, Lapsed, Left, Wrong};
ghost use Rattle.mj_ledger.specs.Events;
ghost use Rattle.mj_ledger.specs.Found.{hand_at, queue_at};
ghost use Rattle.mj_ledger.specs.Standing.{Stands};
ghost use Rattle.mj_ledger.specs.Standing;
ghost use Rattle.mj_ledger.specs.TranscriptLaws.{nobody_is_kept};

use super::Peer;
use super::credit::{credit, debit};
use super::hand::Change;
use super::peers::{ask, change, is_known, meet, owing_service, service_of, waits};
use super::same::{both, either};
use super::sending::{judged_service, send_on};
use super::waiting::{is_passed, leave, some_asks, some_waits};
use indexmap::{IndexMap, IndexSet};
use mj_base::{Frames, NoMemory, Octets};
use std::alloc::Global;

/// The tables of an audit. What a connection opened, asked and answered is looked up by its address.
#[derive(Drop)]
pub struct Tables {
    /// The connections by address, in the order of opening.
    pub peers: IndexMap<Vec<u8>, Peer>,
    /// The addresses of connections that aren't gone.
    pub present: Vec<Octets>,
    /// How many replies of each kind may be sent on.
    pub credits: IndexMap<Vec<u8>, u64>,
    /// Addresses that REQUESTs had before a connection had them.
    pub claimed: IndexSet<Vec<u8>>,
    /// The one service from which somebody may be kept.
    pub suspect: Option<Octets>,
    /// Whether each law is kept so far.
    pub wire: bool,
    pub owner: bool,
    pub busy: bool,
}

impl Tables {
    pub fn new(alloc: Global) -> Tables
        ensures stands { Stands result [] }
        ensures settled { result.suspect ≡ None }
    {
        Tables {
            peers: IndexMap::new(alloc),
            present: Vec::new(alloc),
            credits: IndexMap::new(alloc),
            claimed: IndexSet::new(alloc),
            suspect: None,
            wire: true,
            owner: true,
            busy: true,
        }
    }

    /// Whether a connection has opened with this address.
    pub fn knows(&self, who: &[u8]) -> bool
        ensures { result ≡ is_some (hand_at self.now.peers who.now) }
    {
        is_known(&self.peers, who)
    }

    /// A connection opens with a new address. An address that a REQUEST had already breaks the law on owners.
    pub fn opened(&mut self, alloc: Global, who: &[u8]) -> Result<(), NoMemory>
        requires fresh { hand_at self.old.peers who.now ≡ None }
        ensures stands { OnOk result ((es : List Event) → Stands self.old es → Stands self.new (es ++ Opened who.now ∷ [])) }
    {
        self.owner = both(self.owner, !self.claimed.contains(who));
        meet(&mut self.peers, alloc, who)?;
        self.present.push(Octets::copy_of(alloc, who)?)?;
        Ok(())
    }

    /// A connection asks for a service.
    pub fn asked(
        &mut self,
        alloc: Global,
        who: &[u8],
        service: &[u8],
        body: Frames,
    ) -> Result<(), NoMemory>
        requires judged { Events.is_passed service.now ≡ false }
        requires settled { self.old.suspect ≡ None }
        ensures stands { OnOk result ((es : List Event) → Standing.is_known who.now es ≡ true → Stands self.old es → Stands self.new (es ++ Asked who.now service.now body ∷ [])) }
    {
        ask(&mut self.peers, alloc, who, service, body)?;
        self.suspect = Some(Octets::copy_of(alloc, service)?);
        Ok(())
    }

    /// A connection says that it serves.
    pub fn ready(&mut self, alloc: Global, who: &[u8], service: &[u8]) -> Result<(), NoMemory>
        requires settled { self.old.suspect ≡ None }
        ensures stands { OnOk result ((es : List Event) → Standing.is_known who.now es ≡ true → Stands self.old es → Stands self.new (es ++ Ready who.now service.now ∷ [])) }
    {
        let name = Octets::copy_of(alloc, service)?;
        change(&mut self.peers, who, Change::Ready(name));
        self.suspect = Some(Octets::copy_of(alloc, service)?);
        Ok(())
    }

    /// A connection answers a request that came with this address.
    pub fn replied(
        &mut self,
        alloc: Global,
        who: &[u8],
        last: bool,
        to: &[u8],
        body: &Frames,
    ) -> Result<(), NoMemory>
        requires settled { self.old.suspect ≡ None }
        ensures stands { OnOk result ((es : List Event) → Standing.is_known who.now es ≡ true → Stands self.old es → Stands self.new (es ++ Replied who.now last to.now body.now ∷ [])) }
    {
        let owing = owing_service(&self.peers, alloc, who, to)?;
        credit(&mut self.credits, alloc, to, owing, last, body)?;
        self.suspect = service_of(&self.peers, alloc, who)?;
        let address = Octets::copy_of(alloc, to)?;
        change(&mut self.peers, who, Change::Reply(last, address));
        Ok(())
    }

    /// A connection is sent a request with this address.
    pub fn given(
        &mut self,
        alloc: Global,
        who: &[u8],
        to: &[u8],
        body: &Frames,
    ) -> Result<(), NoMemory>
        ensures stands { OnOk result ((es : List Event) → Standing.is_known who.now es ≡ true → Stands self.old es → Stands self.new (es ++ Given who.now to.now body.now ∷ [])) }
    {
        self.busy = both(self.busy, waits(&self.peers, who));
        let service = judged_service(&self.peers, alloc, who)?;
        let owned = send_on(&mut self.peers, &mut self.claimed, alloc, to, service, body)?;
        self.owner = both(self.owner, owned);
        let address = Octets::copy_of(alloc, to)?;
        change(&mut self.peers, who, Change::Give(address));
        Ok(())
    }

    /// A connection is sent a reply.
    pub fn answered(
        &mut self,
        alloc: Global,
        who: &[u8],
        service: &[u8],
        last: bool,
        body: &Frames,
    ) -> Result<(), NoMemory>
        ensures stands { OnOk result ((es : List Event) → Stands self.old es → Stands self.new (es ++ Answered who.now service.now last body.now ∷ [])) }
    {
        let owed = debit(&mut self.credits, alloc, who, service, last, body)?;
        self.owner = both(self.owner, owed);
        Ok(())
    }

    /// The broker takes this worker's lease as ended.
    pub fn lapsed(&mut self, who: &[u8])
        ensures stands { (es : List Event) → Standing.is_known who.now es ≡ true → Stands self.old es → Stands self.new (es ++ Lapsed who.now ∷ []) }
    {
        change(&mut self.peers, who, Change::Lapse);
    }

    /// A connection is gone.
    pub fn left(&mut self, who: &[u8])
        ensures stands { (es : List Event) → Standing.is_known who.now es ≡ true → Stands self.old es → Stands self.new (es ++ Left who.now ∷ []) }
    {
        change(&mut self.peers, who, Change::Leave);
        leave(&mut self.present, who);
    }

    /// Something was sent that no broker sends.
    pub fn wrong(&mut self)
        ensures stands { (es : List Event) → Stands self.old es → Stands self.new (es ++ Wrong ∷ []) }
    {
        self.wire = false;
    }

    /// Whether nobody is kept waiting, as long as the law on owners is kept.
    pub fn is_clear(&self) -> bool
        ensures { (es : List Event) → Stands self.now es → self.now.owner ≡ true → result ≡ nobody_is_kept es }
    {
        match &self.suspect {
            Some(service) => is_passed(service.as_slice()) || !self.keeps_from(service.as_slice()),
            None => true,
        }
    }

    fn keeps_from(&self, service: &[u8]) -> bool
        ensures { result ≡ (list_any (λ who. waits_for_of (hand_at self.now.peers who) service.now) self.now.present.items && list_any (λ who. nat_lt 0 (length (queue_at self.now.peers who service.now))) self.now.present.items) }
    {
        let present = self.present.as_slice();
        both(
            some_waits(&self.peers, present, service),
            some_asks(&self.peers, present, service),
        )
    }

    /// Takes note that nobody is kept waiting.
    pub fn clear(&mut self)
        ensures stands { (es : List Event) → nobody_is_kept es ≡ true → Stands self.old es → Stands self.new es }
        ensures settled { self.new.suspect ≡ None }
        ensures peers { self.new.peers ≡ self.old.peers }
    {
        self.suspect = None;
    }
}
