//! The effects of a submitter, done to a link, a sink, and its file.
ghost use Rattle.std.specs.Prelude.{◌≡◌, ◌≤◌, ◌∷◌, [], ℕ, take, is_some, OnOk, OnErr, IfOk, IfErr, string_bytes};
ghost use Rattle.std.specs.Io.KnownBytes.{Appends};
ghost use Rattle.mj_peering.specs.Performing.{AreLater, counts};
ghost use Rattle.mj_submit_file.specs.Files.{IsHeld};
ghost use Rattle.mj_submitting.specs.Performing.{AreNext, Breaks, FailsAt, IsNext, PerformCause, Performs, PrintCause, reply_line, world};

use super::stop::Stop;
use mj_base::{Frames, Link, LinkWrite, NoMemory, Sink, WriteAnswer};
use mj_disk::Disk;
use mj_submit_file::{FileFault, SubmitFile};
use mj_submitter::{Effect, Effects};
use mj_words::body_line;
use std::alloc::Global;

/// Does these, up to one that fails.
pub fn perform_all<L: Link, D: Disk, K: Sink>(
    alloc: Global,
    effects: &Effects,
    link: &mut L,
    file: &mut SubmitFile,
    disk: &mut D,
    out: &mut K,
) -> Result<(), Stop>
    requires held { IsHeld D.Disk file.old disk.old }
    requires next { AreNext effects.now file.old.progress }
    ensures done { OnOk result (Performs D.Disk (world (L.told link.old) (K.written out.old) file.old disk.old) (world (L.told link.new) (K.written out.new) file.new disk.new) effects.now) }
    ensures broken { OnErr result (Breaks D.Disk (world (L.told link.old) (K.written out.old) file.old disk.old) (world (L.told link.new) (K.written out.new) file.new disk.new) effects.now) }
    ensures cause { IfErr result (λ stop. PerformCause stop (counts (L.read_faults link.old) (L.write_faults link.old) (K.faults out.old) (K.wants out.old)) (counts (L.read_faults link.new) (L.write_faults link.new) (K.faults out.new) (K.wants out.new)) (D.faults disk.old) (D.faults disk.new)) }
    ensures later { AreLater (counts (L.read_faults link.old) (L.write_faults link.old) (K.faults out.old) (K.wants out.old)) (counts (L.read_faults link.new) (L.write_faults link.new) (K.faults out.new) (K.wants out.new)) }
    ensures disk_later { D.faults disk.old ≤ D.faults disk.new }
    ensures telling { is_some (D.told disk.new) ≡ is_some (D.told disk.old) }
{
    for effect in effects.as_slice() {
        perform(alloc, effect, link, file, disk, out)?;
    }
    Ok(())
}

fn perform<L: Link, D: Disk, K: Sink>(
    alloc: Global,
    effect: &Effect,
    link: &mut L,
    file: &mut SubmitFile,
    disk: &mut D,
    out: &mut K,
) -> Result<(), Stop>
    requires held { IsHeld D.Disk file.old disk.old }
    requires next { IsNext effect.now file.old.progress }
    ensures done { OnOk result (Performs D.Disk (world (L.told link.old) (K.written out.old) file.old disk.old) (world (L.told link.new) (K.written out.new) file.new disk.new) (effect.now ∷ [])) }
    ensures broken { OnErr result (FailsAt D.Disk (world (L.told link.old) (K.written out.old) file.old disk.old) (world (L.told link.new) (K.written out.new) file.new disk.new) effect.now) }
    ensures cause { IfErr result (λ stop. PerformCause stop (counts (L.read_faults link.old) (L.write_faults link.old) (K.faults out.old) (K.wants out.old)) (counts (L.read_faults link.new) (L.write_faults link.new) (K.faults out.new) (K.wants out.new)) (D.faults disk.old) (D.faults disk.new)) }
    ensures later { AreLater (counts (L.read_faults link.old) (L.write_faults link.old) (K.faults out.old) (K.wants out.old)) (counts (L.read_faults link.new) (L.write_faults link.new) (K.faults out.new) (K.wants out.new)) }
    ensures disk_later { D.faults disk.old ≤ D.faults disk.new }
    ensures telling { is_some (D.told disk.new) ≡ is_some (D.told disk.old) }
{
    match effect {
        Effect::Write(text) => match link.write(text.as_slice()) {
            LinkWrite::Done => Ok(()),
            LinkWrite::NoMemory => Err(Stop::NoMemory),
            LinkWrite::Failed => Err(Stop::Write),
        },
        Effect::Reopen => Ok(link.reopen()?),
        Effect::Print { line, body } => print_reply(alloc, *line, body, out),
        Effect::Note(note) => match file.append(alloc, disk, note) {
            Ok(true) => Ok(()),
            Ok(false) => unreachable!(),
            Err(FileFault::NoMemory) => Err(Stop::NoMemory),
            Err(FileFault::Disk) => Err(Stop::Disk),
        },
        Effect::End(_) => Ok(()),
    }
}

/// Prints a reply.
fn print_reply<K: Sink>(alloc: Global, line: u64, body: &Frames, out: &mut K) -> Result<(), Stop>
    ensures done { OnOk result (Appends (K.written out.old) (K.written out.new) (reply_line line body.now)) }
    ensures broken { OnErr result ((n : ℕ) × Appends (K.written out.old) (K.written out.new) (take n (reply_line line body.now))) }
    ensures cause { IfErr result (λ stop. PrintCause stop (K.faults out.old) (K.faults out.new)) }
    ensures later { K.faults out.old ≤ K.faults out.new }
    ensures wants_later { K.wants out.old ≤ K.wants out.new }
{
    let text = reply_text(alloc, line, body)?;
    match out.write(text.as_bytes()) {
        WriteAnswer::Done => Ok(()),
        WriteAnswer::NoMemory => Err(Stop::NoMemory),
        WriteAnswer::Failed => Err(Stop::Write),
    }
}

fn reply_text(alloc: Global, line: u64, body: &Frames) -> Result<String, NoMemory>
    ensures { IfOk result (λ text. string_bytes text ≡ reply_line line body.now) }
{
    let word = format!(in alloc; "reply {line}")?;
    body_line(alloc, word.as_str(), body)
}
