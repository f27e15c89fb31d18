//! The command `follow`.
ghost use Rattle.std.specs.Prelude.{◌≡◌, ◌↔◌, ℕ, [], None, Some, map, string_bytes, codes};
ghost use Rattle.mj_words.specs.Lines.{AppendsLine, fault_words};
ghost use Rattle.mj_words.specs.SinkCounts.{counted};
ghost use Rattle.mj_copy_prog.specs.CopyWords.{tries_among};
ghost use Rattle.mj_copy_prog.specs.FollowTable.{IsRow, PrintsEnding, PrintsStop};
ghost use Rattle.mj_copy_prog.specs.ShipTable.{scene};
ghost use Rattle.mj_copy_prog.specs.Statuses.{IsStatus, code_of};
ghost use Rattle.mj_copy_prog.specs.declared.status.Status.{Status as AStatus};

use super::finish::{break_off, finish_well, give_up, refuse, unopened};
use super::refusal::Refusal;
use super::status::{Status, code};
use super::words::read_tries;
use mj_base::{Link, Sink};
use mj_copying::{FollowEnding, FollowStop, run_follow};
use mj_disk::Disk;
use mj_words::complain;
use std::alloc::Global;
use std::sync::Wait;

/// Does what the words say, which are those behind the program's name: `FILE follow ADDRESS` appends to the file what the
/// other end of the link gives, until it has all. The answer is the status that the program exits with.
pub fn follow<R: Wait, L: Link, D: Disk, K: Sink>(
    rt: &R,
    alloc: Global,
    words: &[String],
    link: &mut L,
    disk: &mut D,
    out: &mut K,
) -> u8
    ensures statuses { IsStatus result }
    ensures words { (result ≡ 1) ↔ (tries_among (codes "follow") (map string_bytes words.now) ≡ None) }
    ensures refused_words { result ≡ 1 → (link.new ≡ link.old) × (disk.new ≡ disk.old) × AppendsLine (K.written out.old) (K.written out.new) (counted (K.faults out.old) (K.wants out.old)) (counted (K.faults out.new) (K.wants out.new)) [] fault_words }

    // What each status says, in the table of the definitions: of the link, of the file, of what a crash may have left at any
    // moment of the call, and of the lines.
    ensures table { (status : AStatus) (tries : ℕ) → result ≡ code_of status → tries_among (codes "follow") (map string_bytes words.now) ≡ Some tries → IsRow status tries (D.time disk.old, D.time disk.new) (scene (L.told link.old) (L.told link.new) (D.told disk.old) (D.told disk.new) (K.written out.old) (K.written out.new) (counted (K.faults out.old) (K.wants out.old)) (counted (K.faults out.new) (K.wants out.new)) (L.read_faults link.old, L.read_faults link.new) (L.write_faults link.old, L.write_faults link.new) (D.faults disk.old, D.faults disk.new)) }
{
    code(run(rt, alloc, words, link, disk, out))
}

fn run<R: Wait, L: Link, D: Disk, K: Sink>(
    rt: &R,
    alloc: Global,
    words: &[String],
    link: &mut L,
    disk: &mut D,
    out: &mut K,
) -> Status
    ensures words { (result ≡ Status.Words) ↔ (tries_among (codes "follow") (map string_bytes words.now) ≡ None) }
    ensures refused_words { result ≡ Status.Words → (link.new ≡ link.old) × (disk.new ≡ disk.old) × AppendsLine (K.written out.old) (K.written out.new) (counted (K.faults out.old) (K.wants out.old)) (counted (K.faults out.new) (K.wants out.new)) [] fault_words }
    ensures row { (tries : ℕ) → tries_among (codes "follow") (map string_bytes words.now) ≡ Some tries → IsRow result tries (D.time disk.old, D.time disk.new) (scene (L.told link.old) (L.told link.new) (D.told disk.old) (D.told disk.new) (K.written out.old) (K.written out.new) (counted (K.faults out.old) (K.wants out.old)) (counted (K.faults out.new) (K.wants out.new)) (L.read_faults link.old, L.read_faults link.new) (L.write_faults link.old, L.write_faults link.new) (D.faults disk.old, D.faults disk.new)) }
{
    match read_tries("follow", words) {
        Some(tries) => follow_file(rt, alloc, tries, link, disk, out),
        None => {
            complain(b"fault words\n", out);
            Status::Words
        }
    }
}

fn follow_file<R: Wait, L: Link, D: Disk, K: Sink>(
    rt: &R,
    alloc: Global,
    tries: u32,
    link: &mut L,
    disk: &mut D,
    out: &mut K,
) -> Status
    ensures { IsRow result tries (D.time disk.old, D.time disk.new) (scene (L.told link.old) (L.told link.new) (D.told disk.old) (D.told disk.new) (K.written out.old) (K.written out.new) (counted (K.faults out.old) (K.wants out.old)) (counted (K.faults out.new) (K.wants out.new)) (L.read_faults link.old, L.read_faults link.new) (L.write_faults link.old, L.write_faults link.new) (D.faults disk.old, D.faults disk.new)) }
{
    match run_follow(rt, alloc, tries, link, disk) {
        Ok(ending) => finish_run(alloc, ending, out),
        Err(stop) => stop_run(alloc, stop, out),
    }
}

/// Prints the last line of a run that is over.
fn finish_run<K: Sink>(alloc: Global, ending: FollowEnding, out: &mut K) -> Status
    ensures { PrintsEnding ending (K.written out.old) (K.written out.new) (counted (K.faults out.old) (K.wants out.old)) (counted (K.faults out.new) (K.wants out.new)) result }
{
    match ending {
        FollowEnding::Done(count) => finish_well(alloc, count, out),
        FollowEnding::NoAnswer(count) => give_up(alloc, count, out),
    }
}

/// Says why a run broke off.
fn stop_run<K: Sink>(alloc: Global, stop: FollowStop, out: &mut K) -> Status
    ensures { PrintsStop stop (K.written out.old) (K.written out.new) (counted (K.faults out.old) (K.wants out.old)) (counted (K.faults out.new) (K.wants out.new)) result }
{
    match stop {
        FollowStop::Broken(stop) => break_off(stop, out),
        FollowStop::Unopened(fault) => unopened(alloc, fault, out),
        FollowStop::OtherBase(base) => refuse(alloc, Refusal::Base(base), out),
    }
}
