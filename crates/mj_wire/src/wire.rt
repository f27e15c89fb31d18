ghost use Rattle.std.specs.Prelude.{◌≡◌, ◌≤◌, ◌++◌, ◌+◌, ◌*◌, [], false, true, length, IfOk, OnOk, OnErr, List, ℕ};
ghost use Rattle.mj_base.specs.declared.limits.Limits.{Limits as Lim};

use super::WireItem;
use super::place::{Place, Stage};
use super::read::take_piece;
use bytes::BytesMut;
use mj_base::{Frames, Limits, NoMemory};
use std::alloc::Global;
use std::marker::Model;

/// The reader of one peer's stream. Of the bytes that it was fed it keeps those of the message and the frame
/// that aren't whole yet, and none after a fault.
#[derive(Drop)]
pub struct Wire {
    limits: Limits,
    place: Place,
    rest: BytesMut,
    taken: u64,
    spent: bool,
}

impl Model for Wire {
    ghost use Rattle.mj_wire.specs.WireState.{State};

    ghost Value = { State };

    ghost view = { λ w. record {
      limits = w.limits;
      place = w.place;
      rest = w.rest.items;
      taken = w.taken;
      spent = w.spent;
    } };

    ghost use Rattle.mj_wire.specs.KeptByWire.{IsLight};

    ghost invariant = { λ w. IsLight w.limits w.place w.rest.items };
}

impl Wire {
    ghost use Rattle.mj_wire.specs.KeptByWire.{kept_by, most_kept, reserved_by, weight_of_items};
    ghost use Rattle.mj_wire.specs.NextReading.{has_ended};
    ghost use Rattle.mj_wire.specs.SmallItems.{AddsSmall};
    ghost use Rattle.mj_wire.specs.StreamItems.{count, gained};
    ghost use Rattle.mj_wire.specs.WireState.{StandsFor, AppendsFront};

    /// A reader at the start of a stream.
    pub fn new(alloc: Global, limits: &Limits) -> Result<Wire, NoMemory>
        ensures stands { IfOk result (λ w. StandsFor limits.now w []) }
        ensures ready { IfOk result (λ w. w.spent ≡ false) }
        ensures limits { IfOk result (λ w. w.limits ≡ limits.now) }
        ensures kept { IfOk result (λ w. reserved_by w ≡ 0) }
    {
        Ok(Wire {
            limits: *limits,
            place: Place {
                stage: Stage::Greeting,
                at: 0,
                group: Frames::new(alloc),
            },
            rest: BytesMut::with_capacity(alloc, 64)?,
            taken: 0,
            spent: false,
        })
    }

    /// Takes the next piece of the stream, and appends the items that it completes. Without memory the wire is
    /// spent and keeps nothing, and of the items that were due the first ones may have been appended.
    pub fn feed(
        &mut self,
        alloc: Global,
        piece: &[u8],
        items: &mut Vec<WireItem>,
    ) -> Result<(), NoMemory>
        requires { self.old.spent ≡ false }
        ensures stream { OnOk result ((limits : Lim) (stream : List ℕ) → StandsFor limits self.old stream
            → StandsFor limits self.new (stream ++ piece.now)) }
        ensures items { OnOk result ((limits : Lim) (stream : List ℕ) → StandsFor limits self.old stream
            → items.new.items ≡ items.old.items ++ gained limits stream piece.now) }
        ensures part { OnErr result ((limits : Lim) (stream : List ℕ) → StandsFor limits self.old stream
            → AppendsFront items.old.items (gained limits stream piece.now) items.new.items) }
        ensures ready { OnOk result (self.new.spent ≡ false) }
        ensures spent { OnErr result (self.new.spent ≡ true) }
        ensures counts { OnOk result (self.new.taken ≡ count (self.old.taken + length piece.now)) }

        // Each message that was appended is within the limits, whatever the wire was fed.
        ensures small { OnOk result (AddsSmall self.old.limits items.old.items items.new.items) }
        ensures limits { self.new.limits ≡ self.old.limits }

        // What is kept is within the limits, and nothing is kept after a fault or without memory.
        ensures bounded { kept_by self.new ≤ most_kept self.new.limits }
        ensures ended { has_ended self.new.place.stage ≡ true → kept_by self.new ≡ 0 }
        ensures released { OnErr result (kept_by self.new ≡ 0) }

        // What is kept and what was appended count no more than what was kept and the piece, 17 for each byte.
        ensures kept { OnOk result (weight_of_items items.new.items + reserved_by self.new
            ≤ weight_of_items items.old.items + reserved_by self.old + 17 * length piece.now) }
    {
        self.spent = true;
        match take_piece(
            alloc,
            &self.limits,
            &mut self.place,
            &mut self.rest,
            piece,
            items,
        ) {
            Ok(()) => {
                self.taken = self.taken.saturating_add(piece.len() as u64);
                self.spent = false;
                Ok(())
            }
            Err(fault) => {
                self.place.group = Frames::new(alloc);
                self.rest = BytesMut::new(alloc);
                Err(fault)
            }
        }
    }

    /// Whether memory ran out in an earlier piece; then the wire can't be fed.
    pub fn is_spent(&self) -> bool
        ensures { result ≡ self.now.spent }
    {
        self.spent
    }

    /// The number of bytes fed, which stops at 2^64 - 1.
    pub fn taken(&self) -> u64
        ensures { result ≡ self.now.taken }
    {
        self.taken
    }
}
