ghost use Rattle.std.specs.Prelude.{◌≡◌, ◌<◌, ◌≤◌, [], ◌∷◌, ◌++◌, true, false, length, replicate, IfSome, IfNone};
ghost use Rattle.mj_base.specs.declared.event.Event.TheVariants as event;
ghost use Rattle.mj_lanes.specs.declared.outlet.Item.TheVariants as item;
ghost use Rattle.mj_lanes.specs.Senders.{writer};
ghost use Rattle.mj_lanes.specs.WriteSteps.{TookOne, as_items};

use super::batch::{BATCH_PIECES, Batch};
use super::ends::{SendEnd, TakeEnd};
use super::entry::{BySender, Entry};
use super::outlet::{FromHub, Item};
use mj_base::{Event, Octets};
use std::marker::Model;
use std::sync::Wait;

/// No more is taken into a batch that has so many bytes.
const BATCH_BYTES: usize = 65_536;

/// What was taken of an outlet.
#[derive(Clone, Copy)]
enum Took {
    /// A piece of so many bytes.
    Piece(usize),
    /// The end mark.
    Mark,
    /// There was nothing.
    Nothing,
}

/// What a lane's writer takes and tells by.
#[derive(Drop)]
pub struct WriterPass<R> {
    rt: R,
    lane: u32,
    end: SendEnd<Entry, BySender>,
    outlet: TakeEnd<Item, FromHub>,
    held: Batch,
}

impl<R> Model for WriterPass<R> {
    ghost use Rattle.std.specs.Prelude.{◌≡◌};
    ghost use Rattle.mj_lanes.specs.Senders.{writer};
    ghost use Rattle.mj_lanes.specs.Passes.{WriterState};

    ghost Value = { WriterState };

    ghost view = { λ p. record { inbox = p.end.name; lane = p.lane; sent = p.end.sent; outlet = p.outlet.name; taken = p.outlet.taken; held = p.held } };

    ghost invariant = { λ p. p.end.from ≡ writer p.lane };
}

impl<R> WriterPass<R> {
    pub(crate) fn new(
        rt: R,
        lane: u32,
        end: SendEnd<Entry, BySender>,
        outlet: TakeEnd<Item, FromHub>,
        held: Batch,
    ) -> WriterPass<R>
        requires { end.from ≡ writer lane }
        ensures { result ≡ record { inbox = end.name; lane = lane; sent = end.sent; outlet = outlet.name; taken = outlet.taken; held = held } }
    {
        WriterPass {
            rt,
            lane,
            end,
            outlet,
            held,
        }
    }

    /// The pass's lane.
    pub fn lane(&self) -> u32
        ensures { result ≡ self.now.lane }
    {
        self.lane
    }

    /// The pieces that were taken last and together.
    pub fn held(&self) -> &[Octets]
        ensures { result.now ≡ self.now.held }
    {
        self.held.as_slice()
    }
}

impl<R: Copy> WriterPass<R> {
    pub(crate) fn handle(&self) -> R {
        self.rt
    }
}

impl<R: Wait> WriterPass<R> {
    /// Sends `Sent` of this lane. It waits while the inbox is full, and for ever once the hub is gone. A hub that sleeps sleeps
    /// on: it takes this before what wakes it.
    pub fn sent(&mut self)
        ensures { self.new ≡ record self.old { sent = self.old.sent ++ event.Sent self.old.lane ∷ [] } }
    {
        self.end
            .send_quietly(&self.rt, Entry::new(Event::Sent(self.lane)));
    }

    /// Sends `Sent` of this lane so many times, as `sent` does.
    pub(crate) fn tell(&mut self, count: usize)
        ensures { self.new ≡ record self.old { sent = self.old.sent ++ replicate count (event.Sent self.old.lane) } }
    {
        for _told in 0..count {
            self.sent();
        }
    }

    /// Sends `Sent` of this lane so many times, or fewer where the inbox is full; says how many times it did.
    pub(crate) fn try_tell(&mut self, count: usize) -> usize
        ensures told { self.new ≡ record self.old { sent = self.old.sent ++ replicate result (event.Sent self.old.lane) } }
        ensures most { result ≤ count }
    {
        for told in 0..count {
            if !self.try_sent() {
                return told;
            }
        }
        count
    }

    /// Sends `Sent` of this lane as `sent` does, unless the inbox is full; says whether it did.
    fn try_sent(&mut self) -> bool
        ensures sent { result ≡ true → self.new ≡ record self.old { sent = self.old.sent ++ event.Sent self.old.lane ∷ [] } }
        ensures same { result ≡ false → self.new ≡ self.old }
    {
        self.end
            .try_send(&self.rt, Entry::new(Event::Sent(self.lane)))
    }

    /// Takes what is in the outlet now, as far as it fits into one batch, and holds the pieces; says whether the end mark is
    /// the last that was taken.
    pub(crate) fn take_ready(&mut self) -> bool
        ensures { self.new ≡ record self.old { taken = self.old.taken ++ as_items self.new.held result; held = self.new.held } }
    {
        self.clear();
        let mut bytes: usize = 0;
        for _turn in 0..BATCH_PIECES {
            match self.take_one() {
                Took::Piece(count) => bytes = bytes.saturating_add(count),
                Took::Mark => return true,
                Took::Nothing => return false,
            }
            if bytes >= BATCH_BYTES {
                return false;
            }
        }
        false
    }

    fn clear(&mut self)
        ensures { self.new ≡ record self.old { held = [] } }
    {
        self.held.clear();
    }

    /// Takes what is at the front of the outlet, if anything is there now, and holds it where it is a piece.
    fn take_one(&mut self) -> Took
        requires { length self.old.held < 64 }
        ensures { TookOne result self.old self.new }
    {
        match self.outlet.poll(&self.rt) {
            Some(Item::Piece(piece)) => {
                let count = piece.len();
                self.held.add(piece);
                Took::Piece(count)
            }
            Some(Item::Mark) => Took::Mark,
            None => Took::Nothing,
        }
    }

    /// Takes what is at the front of the outlet; None where it is an end mark. It waits while there is nothing,
    /// and for ever once the hub is gone.
    pub fn take_piece(&mut self) -> Option<Octets>
        ensures some { IfSome result (λ piece. self.new ≡ record self.old { taken = self.old.taken ++ item.Piece piece ∷ [] }) }
        ensures none { IfNone result (self.new ≡ record self.old { taken = self.old.taken ++ item.Mark ∷ [] }) }
    {
        match self.outlet.take(&self.rt) {
            Item::Piece(piece) => Some(piece),
            Item::Mark => None,
        }
    }
}

impl<R: Drop> WriterPass<R> {
    pub(crate) fn into_ends(self) -> (SendEnd<Entry, BySender>, TakeEnd<Item, FromHub>)
        ensures end { result.0 ≡ record { name = self.inbox; from = writer self.lane; sent = self.sent } }
        ensures outlet { (result.1.name ≡ self.outlet) × (result.1.taken ≡ self.taken) }
    {
        let WriterPass {
            rt: _,
            lane: _,
            end,
            outlet,
            held: _,
        } = self;
        (end, outlet)
    }
}
