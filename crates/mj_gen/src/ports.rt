ghost use Rattle.std.specs.Prelude.{◌≡◌, ◌≤◌, ◌||◌, false, true, Some, []};
ghost use Rattle.mj_gen.specs.Generated.{generated};
ghost use Rattle.mj_gen.specs.ToCome.{to_come};
ghost use Rattle.mj_laws.specs.Notes;

use crate::counts::{Counts, no_counts, with_end, with_event, with_piece};
use crate::events::next_event;
use crate::load::{Place, first_place, is_over, place_behind};
use mj_base::{Event, NoMemory, Note, Octets, Reason};
use mj_disk::Disk;
use mj_serve::Ports;
use std::alloc::Global;

/// Ports that take their events from the generated load, and count what they are given. They give the end behind the load's
/// events, and as soon as an act on the disk has failed.
#[derive(Drop)]
pub struct GenPorts {
    pub alloc: Global,
    pub place: Place,
    /// None where a number has grown too large to be told.
    pub counts: Option<Counts>,
    /// An act on the disk has failed.
    pub shut: bool,
    /// The end was given.
    pub stopped: bool,
}

impl GenPorts {
    /// Ports over a load of so many requests, 1 to 60,000; with tickets where the broker has a store.
    pub fn new(alloc: Global, n: u64, stored: bool) -> GenPorts
        requires some { 1 ≤ n }
        requires few { n ≤ 60000 }
        ensures begins { to_come result.place.n result.place.stored result.place.turn result.place.number ≡ generated n stored }
        ensures stand { ⟦<GenPorts as Ports>⟧.stand result result [] [] }
        ensures going { result.stopped ≡ false }
    {
        GenPorts {
            alloc,
            place: first_place(n, stored),
            counts: Some(no_counts()),
            shut: false,
            stopped: false,
        }
    }
}

impl Ports for GenPorts {
    ghost use Rattle.std.specs.Prelude.{length};
    ghost use Rattle.mj_gen.specs.Standing.{Stands};
    ghost use Rattle.mj_gen.specs.ToCome.{to_come};

    ghost stand = { λ origin now taken given. Stands (to_come origin.place.n origin.place.stored origin.place.turn origin.place.number) (to_come now.place.n now.place.stored now.place.turn now.place.number) now.counts now.shut now.stopped taken given };

    ghost left = { λ ports. length (to_come ports.place.n ports.place.stored ports.place.turn ports.place.number) };

    ghost stopped = { λ ports. ports.stopped };

    ghost lanes_in = { λ ports. 8 };

    fn lanes(&self) -> u32 {
        8
    }

    fn next(&mut self) -> Result<Event, NoMemory> {
        if self.shut || is_over(self.place.turn) {
            self.stopped = true;
            return Ok(Event::Stop);
        }
        let event = next_event(self.alloc, &self.place)?;
        self.counts = with_event(self.counts);
        self.place = place_behind(&self.place);
        Ok(event)
    }

    fn put<D: Disk>(&mut self, _lane: u32, piece: Octets, _disk: &D) {
        self.counts = with_piece(self.counts, piece.len() as u64);
    }

    fn end(&mut self, _lane: u32, _reason: Reason, _at: u64) {
        self.counts = with_end(self.counts);
    }

    fn note(&mut self, note: Note) {
        self.shut = is_shut(self.shut, note);
    }
}

/// Whether an act has failed, before or by this note.
fn is_shut(shut: bool, note: Note) -> bool
    ensures { result ≡ (shut || Notes.is_failure note) }
{
    match note {
        Note::Shut(_) => true,
        Note::Again(_, _) => shut,
    }
}
