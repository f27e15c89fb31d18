ghost use Rattle.std.specs.Prelude.{◌≡◌, [], Some};

use super::{Octets, Sink, WriteAnswer};
use std::alloc::Global;

/// A sink in memory: it keeps what is written, and fails at the writes that it is told to fail at.
#[derive(Drop)]
pub struct MemorySink {
    octets: Octets,
    calls: u64,
    failing: Vec<u64>,
    faults: u64,
    wants: u64,
}

impl MemorySink {
    /// A sink that has got nothing. The writes whose numbers, from 0, stand in `failing` fail, and then
    /// write nothing.
    pub fn new(alloc: Global, failing: Vec<u64>) -> MemorySink
        ensures written { ⟦<MemorySink as Sink>⟧.written result ≡ Some [] }
        ensures faults { ⟦<MemorySink as Sink>⟧.faults result ≡ 0 }
        ensures wants { ⟦<MemorySink as Sink>⟧.wants result ≡ 0 }
    {
        MemorySink {
            octets: Octets::new(alloc),
            calls: 0,
            failing,
            faults: 0,
            wants: 0,
        }
    }

    /// What was written.
    pub fn written(&self) -> &[u8]
        ensures { ⟦<MemorySink as Sink>⟧.written self.now ≡ Some result.now }
    {
        self.octets.as_slice()
    }
}

impl Sink for MemorySink {
    ghost written = { λ s. Some s.octets };

    ghost faults = { λ s. s.faults };

    ghost wants = { λ s. s.wants };

    fn write(&mut self, octets: &[u8]) -> WriteAnswer {
        let call = self.calls;
        self.calls = call.saturating_add(1);
        if self.failing.contains(&call) {
            self.faults = self.faults.saturating_add(1);
            return WriteAnswer::Failed;
        }
        match self.octets.push_all(octets) {
            Ok(()) => WriteAnswer::Done,
            Err(_) => {
                self.wants = self.wants.saturating_add(1);
                WriteAnswer::NoMemory
            }
        }
    }
}
