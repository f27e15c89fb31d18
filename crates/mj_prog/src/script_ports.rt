ghost use Rattle.std.specs.Prelude.{◌≡◌};
ghost use Rattle.mj_prog.specs.Running.{is_stopped};

use super::next::{Next, read_next};
use super::print::{print_end, print_note, print_piece};
use super::progress::Progress;
use mj_base::{Event, NoMemory, Note, Octets, Reason, Sink, Source, WriteAnswer};
use mj_disk::Disk;
use mj_serve::Ports;
use std::alloc::Global;

/// Whether a script has a further event, or why it has none.
#[derive(Clone, Copy)]
pub enum Stage {
    /// It may have one.
    Going,
    /// It has ended, or a line says `stop`.
    Over,
    /// The line of this number, from 1, is unlawful.
    Line(u64),
    /// A read failed.
    Unread,
    /// It isn't read on, since a write failed.
    Unwritten,
}

/// Ports that take their events from a script, and print what they are given.
#[derive(Drop)]
pub struct ScriptPorts<'a, S: Source, K: Sink> {
    pub alloc: Global,
    pub progress: &'a mut Progress,
    pub source: &'a mut S,
    pub sink: &'a mut K,
    pub stage: Stage,
    /// What became of the last write. Nothing is written behind one that wasn't done.
    pub wrote: WriteAnswer,
}

impl<'a, S: Source, K: Sink> Ports for ScriptPorts<'a, S, K> {
    ghost use Rattle.std.specs.Prelude.{◌+◌, length};
    ghost use Rattle.mj_words.specs.SinkCounts.{counted};
    ghost use Rattle.mj_prog.specs.Standing.{Stands, sink_seen, source_seen};

    ghost stand = { λ origin now taken given. Stands (origin.source.ghost_name, origin.sink.ghost_name) (now.source.ghost_name, now.sink.ghost_name) (source_seen (S.left origin.source.now) (S.last origin.source.now) (S.misses origin.source.now) (S.faults origin.source.now)) (source_seen (S.left now.source.now) (S.last now.source.now) (S.misses now.source.now) (S.faults now.source.now)) (sink_seen (K.written origin.sink.now) (counted (K.faults origin.sink.now) (K.wants origin.sink.now))) (sink_seen (K.written now.sink.now) (counted (K.faults now.sink.now) (K.wants now.sink.now))) origin.progress.now now.progress.now now.stage now.wrote taken given };

    ghost left = { λ ports. ports.progress.now.room + length ports.progress.now.pending.items };

    ghost stopped = { λ ports. is_stopped ports.stage };

    ghost lanes_in = { λ ports. ports.progress.now.lanes };

    fn lanes(&self) -> u32 {
        self.progress.lanes
    }

    fn next(&mut self) -> Result<Event, NoMemory> {
        match self.wrote {
            WriteAnswer::Done => {}
            WriteAnswer::NoMemory => return Err(NoMemory),
            WriteAnswer::Failed => {
                self.stage = Stage::Unwritten;
                return Ok(Event::Stop);
            }
        }
        match read_next(self.alloc, self.progress, self.source) {
            Next::Act(event) => Ok(event),
            Next::Over => {
                self.stage = Stage::Over;
                Ok(Event::Stop)
            }
            Next::Line(number) => {
                self.stage = Stage::Line(number);
                Ok(Event::Stop)
            }
            Next::Failed => {
                self.stage = Stage::Unread;
                Ok(Event::Stop)
            }
            Next::NoMemory => Err(NoMemory),
        }
    }

    fn put<D: Disk>(&mut self, lane: u32, piece: Octets, _disk: &D) {
        self.wrote = print_piece(self.alloc, self.wrote, lane, piece.as_slice(), self.sink);
    }

    fn end(&mut self, lane: u32, reason: Reason, at: u64) {
        self.wrote = print_end(self.alloc, self.wrote, lane, reason, at, self.sink);
    }

    fn note(&mut self, note: Note) {
        self.wrote = print_note(self.alloc, self.wrote, note, self.sink);
    }
}
