ghost use Rattle.std.specs.Prelude.{◌≡◌, ℕ};
ghost use Rattle.mj_lanes.specs.Senders.{sender_of, IsSized};

use super::rule::Keyed;
use mj_base::Event;
use std::marker::Model;

/// An entry of the inbox: an event whose piece or tick is within its bounds.
#[derive(Drop)]
pub struct Entry {
    event: Event,
}

impl Model for Entry {
    ghost use Rattle.mj_base.specs.declared.event.Event.{Event};
    ghost use Rattle.mj_lanes.specs.Senders.{IsSized};

    ghost Value = { Event };

    ghost view = { λ e. e.event };

    ghost invariant = { λ e. IsSized e.event };
}

impl Entry {
    pub fn new(event: Event) -> Entry
        requires { IsSized event }
        ensures { result ≡ event }
    {
        Entry { event }
    }

    pub fn into_event(self) -> Event
        ensures same { result ≡ self }
        ensures sized { IsSized self }
    {
        let Entry { event } = self;
        event
    }
}

/// Each entry is of the sender that may send its event.
pub struct BySender;

impl Keyed<Entry> for BySender {
    ghost from = { sender_of };
}
