ghost use Rattle.std.specs.Prelude.{None};

use super::{Sink, WriteAnswer};
use std::io::Write;

/// A sink over any writer, as standard output. It tells nothing of what was written.
#[derive(Drop)]
pub struct StdSink<W> {
    writer: W,
    faults: u64,
}

impl<W: Write> StdSink<W> {
    pub fn new(writer: W) -> StdSink<W> {
        StdSink { writer, faults: 0 }
    }
}

impl<W: Write> Sink for StdSink<W> {
    ghost written = { λ _. None };

    ghost faults = { λ s. s.faults };

    ghost wants = { λ _. 0 };

    /// A writer that takes nothing of a piece that isn't empty has failed.
    fn write(&mut self, octets: &[u8]) -> WriteAnswer {
        match self.writer.write_all(octets) {
            Ok(()) => WriteAnswer::Done,
            Err(_) => {
                self.faults = self.faults.saturating_add(1);
                WriteAnswer::Failed
            }
        }
    }
}
