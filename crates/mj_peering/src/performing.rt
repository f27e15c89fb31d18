//! The acts of an end, done to a link and a sink.
ghost use Rattle.std.specs.Prelude.{◌≡◌, ◌≤◌, ℕ, take, [], OnOk, OnErr, IfErr};
ghost use Rattle.std.specs.Io.KnownBytes.{Appends};
ghost use Rattle.mj_peering.specs.Performing.{AreLater, Breaks, Moves, PerformCause, Performs, PrintCause, counts, entries_of, line_of, places};
ghost use Rattle.mj_words.specs.Lines;

use super::stop::Stop;
use mj_base::{Frames, Link, LinkWrite, Sink, WriteAnswer};
use mj_peer::{Act, Acts};
use mj_words::body_line;
use std::alloc::Global;

/// Does these acts, up to one that fails.
pub(crate) fn perform_all<L: Link, K: Sink>(
    alloc: Global,
    acts: &Acts,
    link: &mut L,
    out: &mut K,
) -> Result<(), Stop>
    ensures done { OnOk result (Performs (places (L.told link.old) (K.written out.old)) (places (L.told link.new) (K.written out.new)) acts.now) }
    ensures broken { OnErr result (Breaks (places (L.told link.old) (K.written out.old)) (places (L.told link.new) (K.written out.new)) acts.now) }
    ensures cause { IfErr result (λ stop. PerformCause stop (counts (L.read_faults link.old) (L.write_faults link.old) (K.faults out.old) (K.wants out.old)) (counts (L.read_faults link.new) (L.write_faults link.new) (K.faults out.new) (K.wants out.new))) }
    ensures later { AreLater (counts (L.read_faults link.old) (L.write_faults link.old) (K.faults out.old) (K.wants out.old)) (counts (L.read_faults link.new) (L.write_faults link.new) (K.faults out.new) (K.wants out.new)) }
{
    for act in acts.as_slice() {
        perform(alloc, act, link, out)?;
    }
    Ok(())
}

fn perform<L: Link, K: Sink>(
    alloc: Global,
    act: &Act,
    link: &mut L,
    out: &mut K,
) -> Result<(), Stop>
    ensures done { OnOk result (Moves (places (L.told link.old) (K.written out.old)) (places (L.told link.new) (K.written out.new)) (entries_of act.now) (line_of act.now)) }
    ensures broken { OnErr result ((n : ℕ) × Moves (places (L.told link.old) (K.written out.old)) (places (L.told link.new) (K.written out.new)) [] (take n (line_of act.now))) }
    ensures cause { IfErr result (λ stop. PerformCause stop (counts (L.read_faults link.old) (L.write_faults link.old) (K.faults out.old) (K.wants out.old)) (counts (L.read_faults link.new) (L.write_faults link.new) (K.faults out.new) (K.wants out.new))) }
    ensures later { AreLater (counts (L.read_faults link.old) (L.write_faults link.old) (K.faults out.old) (K.wants out.old)) (counts (L.read_faults link.new) (L.write_faults link.new) (K.faults out.new) (K.wants out.new)) }
{
    match act {
        Act::Write(text) => match link.write(text.as_slice()) {
            LinkWrite::Done => Ok(()),
            LinkWrite::NoMemory => Err(Stop::NoMemory),
            LinkWrite::Failed => Err(Stop::Write),
        },
        Act::Reopen => Ok(link.reopen()?),
        Act::Part(body) => print_body(alloc, "part", body, out),
        Act::Done(body) => print_body(alloc, "reply", body, out),
        Act::Served | Act::Finished | Act::NoAnswer => Ok(()),
    }
}

fn print_body<K: Sink>(alloc: Global, word: &str, body: &Frames, out: &mut K) -> Result<(), Stop>
    ensures done { OnOk result (Appends (K.written out.old) (K.written out.new) (Lines.body_line word.now body.now)) }
    ensures broken { OnErr result ((n : ℕ) × Appends (K.written out.old) (K.written out.new) (take n (Lines.body_line word.now body.now))) }
    ensures cause { IfErr result (λ stop. PrintCause stop (K.faults out.old) (K.faults out.new)) }
    ensures later { K.faults out.old ≤ K.faults out.new }
    ensures wants_later { K.wants out.old ≤ K.wants out.new }
{
    let line = body_line(alloc, word, body)?;
    print(line.as_bytes(), out)
}

/// Writes a line.
pub(crate) fn print<K: Sink>(line: &[u8], out: &mut K) -> Result<(), Stop>
    ensures done { OnOk result (Appends (K.written out.old) (K.written out.new) line.now) }
    ensures broken { OnErr result ((n : ℕ) × Appends (K.written out.old) (K.written out.new) (take n line.now)) }
    ensures cause { IfErr result (λ stop. PrintCause stop (K.faults out.old) (K.faults out.new)) }
    ensures later { K.faults out.old ≤ K.faults out.new }
    ensures wants_later { K.wants out.old ≤ K.wants out.new }
{
    match out.write(line) {
        WriteAnswer::Done => Ok(()),
        WriteAnswer::NoMemory => Err(Stop::NoMemory),
        WriteAnswer::Failed => Err(Stop::Write),
    }
}
