ghost use Rattle.std.specs.Prelude.{◌≤◌};
ghost use Rattle.mj_lanes.specs.Writing.{WritesNow};

use mj_base::{MemorySink, Octets, Sink};

/// How far pieces were written.
#[derive(Clone, Copy, Debug, PartialEq, Eq)]
pub struct Progress {
    /// So many were written whole.
    pub whole: usize,
    /// So many bytes of the next one.
    pub at: usize,
}

/// A sink for the pieces of a lane, some of which can be written without waiting.
pub trait PieceSink: Sink {
    /// Writes of these pieces what goes without waiting, which may be nothing.
    fn write_now(&mut self, pieces: &[Octets]) -> Progress
        ensures octets { WritesNow (Self.written self.old) (Self.written self.new) result.whole result.at pieces.now }
        ensures later { Self.faults self.old ≤ Self.faults self.new };
}

impl PieceSink for MemorySink {
    fn write_now(&mut self, _pieces: &[Octets]) -> Progress {
        Progress { whole: 0, at: 0 }
    }
}
