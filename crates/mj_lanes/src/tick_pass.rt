ghost use Rattle.std.specs.Prelude.{◌≡◌, ◌≤◌, [], ◌∷◌, ◌++◌};
ghost use Rattle.mj_base.specs.declared.event.Event.TheVariants as event;
ghost use Rattle.mj_lanes.specs.Senders.{ticker};

use super::ends::SendEnd;
use super::entry::{BySender, Entry};
use mj_base::Event;
use std::marker::Model;
use std::sync::Wait;

/// What the ticker sends by.
#[derive(Drop)]
pub struct TickPass<R> {
    rt: R,
    end: SendEnd<Entry, BySender>,
}

impl<R> Model for TickPass<R> {
    ghost use Rattle.std.specs.Prelude.{◌≡◌};
    ghost use Rattle.mj_lanes.specs.Senders.{ticker};
    ghost use Rattle.mj_lanes.specs.Passes.{TickerState};

    ghost Value = { TickerState };

    ghost view = { λ p. record { inbox = p.end.name; sent = p.end.sent } };

    ghost invariant = { λ p. p.end.from ≡ ticker };
}

impl<R> TickPass<R> {
    pub(crate) fn new(rt: R, end: SendEnd<Entry, BySender>) -> TickPass<R>
        requires { end.from ≡ ticker }
        ensures { result ≡ record { inbox = end.name; sent = end.sent } }
    {
        TickPass { rt, end }
    }
}

impl<R: Copy> TickPass<R> {
    pub(crate) fn handle(&self) -> R {
        self.rt
    }
}

impl<R: Wait> TickPass<R> {
    /// Sends `Tick`: it is so many milliseconds since the start. It waits while the inbox is full, and for ever
    /// once the hub is gone.
    pub fn tick(&mut self, ms: u64)
        requires { ms ≤ 1000000000000000 }
        ensures { self.new ≡ record self.old { sent = self.old.sent ++ event.Tick ms ∷ [] } }
    {
        self.end.send(&self.rt, Entry::new(Event::Tick(ms)));
    }

    /// Sends `Stop`. It waits as `tick` does.
    pub fn stop(&mut self)
        ensures { self.new ≡ record self.old { sent = self.old.sent ++ event.Stop ∷ [] } }
    {
        self.end.send(&self.rt, Entry::new(Event::Stop));
    }
}

impl<R: Drop> TickPass<R> {
    pub(crate) fn into_end(self) -> SendEnd<Entry, BySender>
        ensures { result ≡ record { name = self.inbox; from = ticker; sent = self.sent } }
    {
        let TickPass { rt: _, end } = self;
        end
    }
}
