ghost use Rattle.std.specs.Prelude.{◌≡◌, ℕ, [], ◌∷◌, ◌++◌};

use super::ends::SendEnd;
use super::rule::Keyed;
use mj_base::Octets;
use std::marker::Model;
use std::sync::Wait;

/// What an outlet holds.
#[derive(Drop)]
pub enum Item {
    /// A piece for the lane's peer.
    Piece(Octets),
    /// The end of what goes to this peer.
    Mark,
}

/// The hub alone sends into an outlet.
pub struct FromHub;

impl Keyed<Item> for FromHub {
    ghost from = { λ _. 0 };
}

/// The hub's side of a lane's outlet.
#[derive(Drop)]
pub struct Outlet {
    end: SendEnd<Item, FromHub>,
}

impl Model for Outlet {
    ghost use Rattle.std.specs.Prelude.{◌≡◌};
    ghost use Rattle.mj_lanes.specs.Passes.{OutletState};

    ghost Value = { OutletState };

    ghost view = { λ o. record { name = o.end.name; put = o.end.sent } };

    ghost invariant = { λ o. o.end.from ≡ 0 };
}

impl Outlet {
    pub fn new(end: SendEnd<Item, FromHub>) -> Outlet
        requires { end.from ≡ 0 }
        ensures { result ≡ record { name = end.name; put = end.sent } }
    {
        Outlet { end }
    }

    /// Puts an item at the end of the outlet. It waits while the outlet is full.
    pub fn put<R: Wait>(&mut self, rt: &R, item: Item)
        ensures { self.new ≡ record self.old { put = self.old.put ++ item ∷ [] } }
    {
        self.end.send(rt, item);
    }

    pub fn into_end(self) -> SendEnd<Item, FromHub>
        ensures { result ≡ record { name = self.name; from = 0; sent = self.put } }
    {
        let Outlet { end } = self;
        end
    }
}
