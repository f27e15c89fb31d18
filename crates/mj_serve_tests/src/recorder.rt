ghost use Rattle.std.specs.Prelude.{◌≡◌, ◌<◌, ◌^◌, [], ◌∷◌, ◌++◌, false, length, IsTrue, IfSome, reverse};
ghost use Rattle.mj_base.specs.EventBounds.{IsTakenBy};
ghost use Rattle.mj_serve_tests.specs.Recording.{AddsOne};

use mj_base::{Event, NoMemory, Note, Octets, Out, Reason};
use mj_disk::Disk;
use mj_serve::Ports;
use std::alloc::Global;

/// Something that was given, and of a piece the disk's moment at which it was.
#[derive(Drop)]
pub struct Kept {
    pub out: Out,
    pub moment: Option<u64>,
}

/// Ports that give the events of a list, and keep all that they are given.
#[derive(Drop)]
pub struct Recorder {
    lanes: u32,
    /// The events that are still to come, the next one last.
    coming: Vec<Event>,
    pub given: Vec<Kept>,
    /// Memory ran out for something that was given.
    pub lost: bool,
    ended: bool,
    ghost few: { length coming.items < 2 ^ 32 },
}

impl Recorder {
    /// Ports of so many lanes, with these events, the first one first; an event that the lanes don't allow ends them. None
    /// where there are 2^32 events or more.
    pub fn new(alloc: Global, lanes: u32, mut events: Vec<Event>) -> Option<Recorder>
        ensures lanes { IfSome result (λ ports. ports.lanes ≡ lanes) }
        ensures fresh { IfSome result (λ ports. ports.ended ≡ false) }
        ensures coming { IfSome result (λ ports. ports.coming.items ≡ reverse events.items) }
        ensures given { IfSome result (λ ports. ports.given.items ≡ []) }
    {
        if events.len() >= 1 << 32 {
            return None;
        }
        events.reverse();
        Some(Recorder {
            lanes,
            coming: events,
            given: Vec::new(alloc),
            lost: false,
            ended: false,
        })
    }

    fn keep(&mut self, out: Out, moment: Option<u64>)
        ensures kept { AddsOne self.old.lost self.new.lost self.old.given.items self.new.given.items (record { out = out; moment = moment }) }
        ensures coming { self.new.coming.items ≡ self.old.coming.items }
        ensures ended { self.new.ended ≡ self.old.ended }
        ensures lanes { self.new.lanes ≡ self.old.lanes }
    {
        match self.given.push(Kept { out, moment }) {
            Ok(()) => {}
            Err(_no_memory) => self.lost = true,
        }
    }
}

impl Ports for Recorder {
    ghost use Rattle.std.specs.Prelude.{length};
    ghost use Rattle.mj_serve_tests.specs.Recording.{Keeps};

    ghost stand = { λ origin now taken given. Keeps origin.coming.items now.coming.items taken origin.given.items now.given.items now.lost given };

    ghost left = { λ ports. length ports.coming.items };

    ghost stopped = { λ ports. ports.ended };

    ghost lanes_in = { λ ports. ports.lanes };

    fn lanes(&self) -> u32 {
        self.lanes
    }

    fn next(&mut self) -> Result<Event, NoMemory> {
        match self.coming.pop() {
            Some(event) => {
                if fits(self.lanes, &event) {
                    Ok(event)
                } else {
                    self.coming.clear();
                    self.ended = true;
                    Ok(Event::Stop)
                }
            }
            None => {
                self.ended = true;
                Ok(Event::Stop)
            }
        }
    }

    fn put<D: Disk>(&mut self, lane: u32, piece: Octets, disk: &D) {
        let moment = disk.moment();
        self.keep(Out::Piece(lane, piece), Some(moment));
    }

    fn end(&mut self, lane: u32, reason: Reason, at: u64) {
        self.keep(Out::End(lane, reason, at), None);
    }

    fn note(&mut self, note: Note) {
        self.keep(Out::Note(note), None);
    }
}

/// Whether ports of so many lanes may give the event, which isn't the end.
fn fits(lanes: u32, event: &Event) -> bool
    ensures { IsTrue result → IsTakenBy lanes event.now }
{
    match event {
        Event::Open(lane) | Event::Sent(lane) | Event::Close(lane) => *lane < lanes,
        Event::Bytes(lane, piece) => { *lane < lanes && !piece.is_empty() && piece.len() <= 65_536 }
        Event::Tick(ms) => *ms <= 1_000_000_000_000_000,
        Event::Stop => false,
    }
}
