ghost use Rattle.std.specs.Prelude.{◌≡◌, [], ◌∷◌, ◌++◌};
ghost use Rattle.mj_lanes.specs.Senders.{reader, IsOfReader};

use super::ends::SendEnd;
use super::entry::{BySender, Entry};
use mj_base::Event;
use std::marker::Model;
use std::sync::Wait;

/// What a lane's reader sends by.
#[derive(Drop)]
pub struct LanePass<R> {
    rt: R,
    lane: u32,
    end: SendEnd<Entry, BySender>,
}

impl<R> Model for LanePass<R> {
    ghost use Rattle.std.specs.Prelude.{◌≡◌};
    ghost use Rattle.mj_lanes.specs.Senders.{reader};
    ghost use Rattle.mj_lanes.specs.Passes.{ReaderState};

    ghost Value = { ReaderState };

    ghost view = { λ p. record { inbox = p.end.name; lane = p.lane; sent = p.end.sent } };

    ghost invariant = { λ p. p.end.from ≡ reader p.lane };
}

impl<R> LanePass<R> {
    pub(crate) fn new(rt: R, lane: u32, end: SendEnd<Entry, BySender>) -> LanePass<R>
        requires { end.from ≡ reader lane }
        ensures { result ≡ record { inbox = end.name; lane = lane; sent = end.sent } }
    {
        LanePass { rt, lane, end }
    }

    /// The pass's lane.
    pub fn lane(&self) -> u32
        ensures { result ≡ self.now.lane }
    {
        self.lane
    }
}

impl<R: Copy> LanePass<R> {
    pub(crate) fn handle(&self) -> R {
        self.rt
    }
}

impl<R: Wait> LanePass<R> {
    /// Sends `Open`, `Bytes` or `Close` of this lane. It waits while the inbox is full, and for ever once the hub
    /// is gone.
    pub fn send(&mut self, event: Event)
        requires { IsOfReader self.old.lane event }
        ensures { self.new ≡ record self.old { sent = self.old.sent ++ event ∷ [] } }
    {
        self.end.send(&self.rt, Entry::new(event));
    }
}

impl<R: Drop> LanePass<R> {
    pub(crate) fn into_end(self) -> SendEnd<Entry, BySender>
        ensures { result ≡ record { name = self.inbox; from = reader self.lane; sent = self.sent } }
    {
        let LanePass {
            rt: _,
            lane: _,
            end,
        } = self;
        end
    }
}
