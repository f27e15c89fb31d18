ghost use Rattle.std.specs.Prelude.{◌≡◌, ◌≤◌, ◌<◌, ◌++◌, length, drop, take, min, Some};

use super::{Octets, ReadAnswer, Source};

/// A source in memory: it gives its bytes, and fails at the reads that it is told to fail at.
#[derive(Drop)]
pub struct MemorySource {
    octets: Octets,
    at: usize,
    calls: u64,
    failing: Vec<u64>,
    faults: u64,
    /// Where the last read began.
    last: usize,
    misses: u64,
    ghost inside: { at ≤ length octets },
}

impl MemorySource {
    /// A source of these bytes. The reads whose numbers, from 0, stand in `failing` fail.
    pub fn new(octets: Octets, failing: Vec<u64>) -> MemorySource
        ensures left { ⟦<MemorySource as Source>⟧.left result ≡ Some octets }
        ensures faults { ⟦<MemorySource as Source>⟧.faults result ≡ 0 }
        ensures misses { ⟦<MemorySource as Source>⟧.misses result ≡ 0 }
    {
        MemorySource {
            octets,
            at: 0,
            calls: 0,
            failing,
            faults: 0,
            last: 0,
            misses: 0,
        }
    }
}

impl Source for MemorySource {
    ghost left = { λ s. Some (drop s.at s.octets) };

    ghost faults = { λ s. s.faults };

    ghost last = { λ s. Some (drop s.last s.octets) };

    ghost misses = { λ s. s.misses };

    fn read(&mut self, into: &mut [u8]) -> ReadAnswer {
        let call = self.calls;
        self.calls = call.saturating_add(1);
        self.last = self.at;
        if self.failing.contains(&call) {
            self.faults = self.faults.saturating_add(1);
            self.misses = self.misses.saturating_add(1);
            return ReadAnswer::Failed;
        }
        let rest = self.octets.as_slice().split_at(self.at).1;
        if rest.is_empty() {
            self.misses = self.misses.saturating_add(1);
            return ReadAnswer::End;
        }
        let count = copy_front(rest, into);
        self.at += count;
        ReadAnswer::Got(count)
    }
}

/// Copies as many bytes as both have room for, and says how many.
pub(crate) fn copy_front(from: &[u8], into: &mut [u8]) -> usize
    ensures count { result ≡ min (length from.now) (length into.old) }
    ensures copied { take result into.new ≡ take result from.now }
{
    let count = from.len().min(into.len());
    into[..count].copy_from_slice(&from[..count]);
    count
}
