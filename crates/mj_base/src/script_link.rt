ghost use Rattle.std.specs.Prelude.{◌≡◌, ◌≤◌, [], Some, length};
ghost use Rattle.mj_base.specs.Linking.{all_written};

use super::memory_source::copy_front;
use super::{Link, LinkAnswer, LinkEntry, LinkEvent, LinkWrite, NoMemory, Octets};
use std::alloc::Global;

/// A link in memory: it gives its events, and then `Idle`. It keeps what is written, and fails at the reads and
/// writes that it is told to fail at.
#[derive(Drop)]
pub struct ScriptLink {
    /// The events that are still to come, the next one last.
    events: Vec<LinkEvent>,
    /// The bytes of the last `Given`, and how many of them were read.
    given: Octets,
    at: usize,
    entries: Vec<LinkEntry>,
    written: Octets,
    calls: u64,
    failing: Vec<u64>,
    read_faults: u64,
    write_faults: u64,
    ghost inside: { at ≤ length given },
    ghost written_is: { written ≡ all_written entries.items },
}

impl ScriptLink {
    /// A link with these events, the first one first; an empty `Given` is an `Idle`. The reads and writes whose
    /// numbers, counted together from 0, stand in `failing` fail, and then do nothing.
    pub fn new(alloc: Global, mut events: Vec<LinkEvent>, failing: Vec<u64>) -> ScriptLink
        ensures told { ⟦<ScriptLink as Link>⟧.told result ≡ Some [] }
        ensures reads { ⟦<ScriptLink as Link>⟧.read_faults result ≡ 0 }
        ensures writes { ⟦<ScriptLink as Link>⟧.write_faults result ≡ 0 }
    {
        events.reverse();
        ScriptLink {
            events,
            given: Octets::new(alloc),
            at: 0,
            entries: Vec::new(alloc),
            written: Octets::new(alloc),
            calls: 0,
            failing,
            read_faults: 0,
            write_faults: 0,
        }
    }

    /// All bytes that were written, also where the link had ended.
    pub fn written(&self) -> &[u8]
        ensures { result.now ≡ all_written self.now.entries.items }
    {
        self.written.as_slice()
    }
}

impl Link for ScriptLink {
    ghost told = { λ l. Some l.entries.items };

    ghost read_faults = { λ l. l.read_faults };

    ghost write_faults = { λ l. l.write_faults };

    #[tactic(auto, using(crate::proofs::LinkLemmas::all_written_more))]
    fn read(&mut self, into: &mut [u8]) -> LinkAnswer {
        if is_failing(&mut self.calls, &self.failing) {
            self.read_faults = self.read_faults.saturating_add(1);
            return LinkAnswer::Failed;
        }
        if self.entries.reserve(1).is_err() {
            return LinkAnswer::NoMemory;
        }
        if self.at == self.given.len() {
            match self.events.pop() {
                Some(LinkEvent::Given(octets)) => {
                    self.given = octets;
                    self.at = 0;
                }
                Some(LinkEvent::End) => {
                    self.entries.push_reserved(LinkEntry::End);
                    return LinkAnswer::End;
                }
                Some(LinkEvent::Idle) | None => {}
            }
        }
        let rest = self.given.as_slice().split_at(self.at).1;
        if rest.is_empty() {
            self.entries.push_reserved(LinkEntry::Idle);
            return LinkAnswer::Idle;
        }
        let count = copy_front(rest, into);
        let Ok(copy) = Octets::copy_of(*self.entries.allocator(), &into[..count]) else {
            return LinkAnswer::NoMemory;
        };
        self.entries.push_reserved(LinkEntry::Got(copy));
        self.at += count;
        LinkAnswer::Got(count)
    }

    #[tactic(auto, using(crate::proofs::LinkLemmas::all_written_more))]
    fn write(&mut self, octets: &[u8]) -> LinkWrite {
        if is_failing(&mut self.calls, &self.failing) {
            self.write_faults = self.write_faults.saturating_add(1);
            return LinkWrite::Failed;
        }
        if self.entries.reserve(1).is_err() {
            return LinkWrite::NoMemory;
        }
        let Ok(copy) = Octets::copy_of(*self.entries.allocator(), octets) else {
            return LinkWrite::NoMemory;
        };
        if self.written.push_all(octets).is_err() {
            return LinkWrite::NoMemory;
        }
        self.entries.push_reserved(LinkEntry::Wrote(copy));
        LinkWrite::Done
    }

    #[tactic(auto, using(crate::proofs::LinkLemmas::all_written_more))]
    fn reopen(&mut self) -> Result<(), NoMemory> {
        self.entries.push(LinkEntry::Reopened)?;
        self.given.clear();
        self.at = 0;
        Ok(())
    }
}

/// Whether this call is one that fails; it is counted.
fn is_failing(calls: &mut u64, failing: &Vec<u64>) -> bool {
    let call = *calls;
    *calls = call.saturating_add(1);
    failing.contains(&call)
}
