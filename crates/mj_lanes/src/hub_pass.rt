ghost use Rattle.std.specs.Prelude.{◌≡◌, ◌+◌, ◌*◌, ◌<◌, ℕ, List, [], ◌∷◌, ◌++◌, length, IfOk, IfSome, IfNone};
ghost use Rattle.crossbeam_channel.specs.Ends.{sends_on};
ghost use Rattle.mj_base.specs.EventBounds.{IsWithin};
ghost use Rattle.mj_base.specs.declared.event.Event.{Event};
ghost use Rattle.mj_lanes.specs.declared.outlet.Item.TheVariants as item;
ghost use Rattle.mj_lanes.specs.Ends.{name_of};
ghost use Rattle.mj_lanes.specs.Passes.{OutletState, Puts, new_reader, new_writer, new_outlet};

use super::batch::Batch;
use super::ends::{Line, TakeEnd, open};
use super::entry::{BySender, Entry};
use super::outlet::{Item, Outlet};
use super::{LanePass, TickPass, WriterPass};
use mj_base::{Event, NoMemory, Octets};
use std::alloc::Global;
use std::marker::Model;
use std::sync::Wait;

/// The inbox holds so many entries.
const INBOX_ENTRIES: usize = 1_024;

/// Each outlet holds so many pieces and end marks.
const OUTLET_ITEMS: usize = 4_097;

/// What the hub takes and puts by.
#[derive(Drop)]
pub struct HubPass<R> {
    rt: R,
    inbox: TakeEnd<Entry, BySender>,
    outlets: Vec<Outlet>,
}

impl<R> Model for HubPass<R> {
    ghost use Rattle.std.specs.Prelude.{◌≡◌, ◌+◌, ◌*◌, length};
    ghost use Rattle.mj_lanes.specs.Passes.{HubState};

    ghost Value = { HubState };

    ghost view = { λ p. record { inbox = p.inbox.name; taken = p.inbox.taken; outlets = p.outlets.items } };

    // The senders that were made are the ticker, and two for each lane.
    ghost invariant = { λ p. p.inbox.made ≡ 2 * length p.outlets.items + 1 };
}

impl<R: Copy + Drop> HubPass<R> {
    /// A hub without lanes, what its senders are made of, and the ticker.
    pub(crate) fn new(
        rt: R,
        alloc: Global,
    ) -> Result<(HubPass<R>, Line<Entry, BySender>, TickPass<R>), NoMemory>
        ensures { IfOk result (λ r. (r.0 ≡ record { inbox = name_of (sends_on r.1); taken = []; outlets = [] }) × (r.2 ≡ record { inbox = r.0.inbox; sent = [] })) }
    {
        let (line, mut inbox) = open(alloc, INBOX_ENTRIES)?;
        let bell = inbox.bell()?;
        let ticks = TickPass::new(rt, inbox.make(line.try_clone()?, bell));
        let outlets = Vec::new(alloc);
        Ok((HubPass { rt, inbox, outlets }, line, ticks))
    }

    /// Adds a lane, whose number is the number of lanes so far.
    pub(crate) fn add_lane(
        &mut self,
        rt: R,
        alloc: Global,
        line: &Line<Entry, BySender>,
        lane: u32,
    ) -> Result<(LanePass<R>, WriterPass<R>), NoMemory>
        requires line { self.old.inbox ≡ name_of (sends_on line.now) }
        requires lane { lane ≡ length self.old.outlets }
        ensures hub { IfOk result (λ r. self.new ≡ record self.old { outlets = self.old.outlets ++ new_outlet r.1.outlet ∷ [] }) }
        ensures reader { IfOk result (λ r. r.0 ≡ new_reader self.old.inbox lane) }
        ensures writer { IfOk result (λ r. r.1 ≡ new_writer self.old.inbox lane r.1.outlet) }
    {
        let for_reader = line.try_clone()?;
        let for_writer = line.try_clone()?;
        let reader_bell = self.inbox.bell()?;
        let writer_bell = self.inbox.bell()?;
        let held = Batch::new(alloc)?;
        let (pieces, mut taker) = open(alloc, OUTLET_ITEMS)?;
        let outlet_bell = taker.bell()?;
        self.outlets
            .push(Outlet::new(taker.make(pieces, outlet_bell)))?;
        let reader = LanePass::new(rt, lane, self.inbox.make(for_reader, reader_bell));
        let end = self.inbox.make(for_writer, writer_bell);
        let writer = WriterPass::new(rt, lane, end, taker, held);
        Ok((reader, writer))
    }
}

impl<R: Wait> HubPass<R> {
    /// Takes the entry at the front of the inbox. It waits while there is none, and for ever once all senders are
    /// gone.
    pub fn take(&mut self) -> Event
        ensures taken { self.new ≡ record self.old { taken = self.old.taken ++ result ∷ [] } }
        ensures within { IsWithin (length self.old.outlets) result }
    {
        self.inbox.take(&self.rt).into_event()
    }

    /// Takes the entry at the front of the inbox, if there is one now.
    pub fn poll(&mut self) -> Option<Event>
        ensures taken { IfSome result (λ event. self.new ≡ record self.old { taken = self.old.taken ++ event ∷ [] }) }
        ensures within { IfSome result (λ event. IsWithin (length self.old.outlets) event) }
        ensures none { IfNone result (self.new ≡ self.old) }
    {
        match self.inbox.poll(&self.rt) {
            Some(entry) => Some(entry.into_event()),
            None => None,
        }
    }

    /// Takes and drops entries until all senders are gone: for a hub whose other passes are dropped.
    pub fn drain(&mut self)
        ensures { (more : List Event) × (self.new ≡ record self.old { taken = self.old.taken ++ more }) }
    {
        self.inbox.drain(&self.rt);
    }

    /// Puts a piece at the end of the lane's outlet. It waits while the outlet is full.
    pub fn put(&mut self, lane: u32, piece: Octets)
        requires { lane < length self.old.outlets }
        ensures puts { Puts self.old lane (item.Piece piece) self.new }
        ensures lanes { length self.new.outlets ≡ length self.old.outlets }
    {
        self.outlets[lane as usize].put(&self.rt, Item::Piece(piece));
    }

    /// Puts an end mark at the end of the lane's outlet. It waits while the outlet is full.
    pub fn mark(&mut self, lane: u32)
        requires { lane < length self.old.outlets }
        ensures puts { Puts self.old lane item.Mark self.new }
        ensures lanes { length self.new.outlets ≡ length self.old.outlets }
    {
        self.outlets[lane as usize].put(&self.rt, Item::Mark);
    }
}

impl<R: Drop> HubPass<R> {
    pub(crate) fn into_parts(self) -> (TakeEnd<Entry, BySender>, Vec<Outlet>)
        ensures inbox { (result.0.name ≡ self.inbox) × (result.0.taken ≡ self.taken) }
        ensures outlets { result.1.items ≡ self.outlets }
    {
        let HubPass {
            rt: _,
            inbox,
            outlets,
        } = self;
        (inbox, outlets)
    }
}
