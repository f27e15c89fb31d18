ghost use Rattle.std.specs.Prelude.{◌≡◌, ◌≢◌, ◌≤◌, ◌↔◌, ℕ, [], None, Some, map, string_bytes, codes};
ghost use Rattle.mj_copy_file.specs.Logs.{IsHeld};
ghost use Rattle.mj_disk.specs.DiskModel.{CrashesAs, Turns};
ghost use Rattle.mj_journal.specs.Opening.{IsImageOrOpensAlike, KeepsFile};
ghost use Rattle.mj_words.specs.Lines.{AppendsLine, fault_words};
ghost use Rattle.mj_words.specs.SinkCounts.{counted};
ghost use Rattle.mj_copy_prog.specs.CopyWords.{tries_among};
ghost use Rattle.mj_copy_prog.specs.ShipTable.{IsRow, PrintsEnding, scene};
ghost use Rattle.mj_copy_prog.specs.Statuses.{IsStatus, code_of};
ghost use Rattle.mj_copy_prog.specs.declared.status.Status.{Status as AStatus};

use super::finish::{break_off, finish_well, give_up, unopened};
use super::status::{Status, code};
use super::words::read_tries;
use mj_base::{Link, Sink};
use mj_copy_file::Log;
use mj_copying::{ShipEnding, run_ship};
use mj_disk::Disk;
use mj_words::complain;
use std::alloc::Global;
use std::sync::Wait;

/// Does what the words say, which are those behind the program's name: `FILE ship ADDRESS` gives the commands of the file
/// to whoever follows on the link, until that one has all. The answer is the status that the program exits with.
pub fn ship<R: Wait, L: Link, D: Disk, K: Sink>(
    rt: &R,
    alloc: Global,
    words: &[String],
    link: &mut L,
    disk: &mut D,
    out: &mut K,
) -> u8
    ensures statuses { IsStatus result }
    ensures words { (result ≡ 1) ↔ (tries_among (codes "ship") (map string_bytes words.now) ≡ None) }
    ensures refused_words { result ≡ 1 → (link.new ≡ link.old) × (disk.new ≡ disk.old) × AppendsLine (K.written out.old) (K.written out.new) (counted (K.faults out.old) (K.wants out.old)) (counted (K.faults out.new) (K.wants out.new)) [] fault_words }

    // What each status says, in the table of the definitions.
    ensures table { (status : AStatus) (tries : ℕ) → result ≡ code_of status → tries_among (codes "ship") (map string_bytes words.now) ≡ Some tries → IsRow status tries (scene (L.told link.old) (L.told link.new) (D.told disk.old) (D.told disk.new) (K.written out.old) (K.written out.new) (counted (K.faults out.old) (K.wants out.old)) (counted (K.faults out.new) (K.wants out.new)) (L.read_faults link.old, L.read_faults link.new) (L.write_faults link.old, L.write_faults link.new) (D.faults disk.old, D.faults disk.new)) }

    // Whatever the answer is: the file is as it was, or was short, and its images open as they did.
    ensures kept { Turns KeepsFile (D.told disk.old) (D.told disk.new) }
    ensures crash { CrashesAs IsImageOrOpensAlike (D.time disk.old, D.time disk.new) (D.told disk.old) (D.told disk.new) }
{
    code(run(rt, alloc, words, link, disk, out))
}

fn run<R: Wait, L: Link, D: Disk, K: Sink>(
    rt: &R,
    alloc: Global,
    words: &[String],
    link: &mut L,
    disk: &mut D,
    out: &mut K,
) -> Status
    ensures words { (result ≡ Status.Words) ↔ (tries_among (codes "ship") (map string_bytes words.now) ≡ None) }
    ensures refused_words { result ≡ Status.Words → (link.new ≡ link.old) × (disk.new ≡ disk.old) × AppendsLine (K.written out.old) (K.written out.new) (counted (K.faults out.old) (K.wants out.old)) (counted (K.faults out.new) (K.wants out.new)) [] fault_words }
    ensures row { (tries : ℕ) → tries_among (codes "ship") (map string_bytes words.now) ≡ Some tries → IsRow result tries (scene (L.told link.old) (L.told link.new) (D.told disk.old) (D.told disk.new) (K.written out.old) (K.written out.new) (counted (K.faults out.old) (K.wants out.old)) (counted (K.faults out.new) (K.wants out.new)) (L.read_faults link.old, L.read_faults link.new) (L.write_faults link.old, L.write_faults link.new) (D.faults disk.old, D.faults disk.new)) }
    ensures kept { Turns KeepsFile (D.told disk.old) (D.told disk.new) }
    ensures crash { CrashesAs IsImageOrOpensAlike (D.time disk.old, D.time disk.new) (D.told disk.old) (D.told disk.new) }
{
    match read_tries("ship", words) {
        Some(tries) => ship_file(rt, alloc, tries, link, disk, out),
        None => {
            complain(b"fault words\n", out);
            Status::Words
        }
    }
}

/// Opens the file, and ships its commands.
fn ship_file<R: Wait, L: Link, D: Disk, K: Sink>(
    rt: &R,
    alloc: Global,
    tries: u32,
    link: &mut L,
    disk: &mut D,
    out: &mut K,
) -> Status
    ensures row { IsRow result tries (scene (L.told link.old) (L.told link.new) (D.told disk.old) (D.told disk.new) (K.written out.old) (K.written out.new) (counted (K.faults out.old) (K.wants out.old)) (counted (K.faults out.new) (K.wants out.new)) (L.read_faults link.old, L.read_faults link.new) (L.write_faults link.old, L.write_faults link.new) (D.faults disk.old, D.faults disk.new)) }
    ensures kept { Turns KeepsFile (D.told disk.old) (D.told disk.new) }
    ensures crash { CrashesAs IsImageOrOpensAlike (D.time disk.old, D.time disk.new) (D.told disk.old) (D.told disk.new) }
{
    match Log::open(alloc, disk, 1) {
        Ok(log) => ship_log(rt, alloc, tries, &log, link, disk, out),
        Err(fault) => unopened(alloc, fault, out),
    }
}

/// Ships the commands of an open file.
fn ship_log<R: Wait, L: Link, D: Disk, K: Sink>(
    rt: &R,
    alloc: Global,
    tries: u32,
    log: &Log,
    link: &mut L,
    disk: &mut D,
    out: &mut K,
) -> Status
    requires { IsHeld D.Disk log.now disk.old }
    ensures row { IsRow result tries (scene (L.told link.old) (L.told link.new) (D.told disk.old) (D.told disk.new) (K.written out.old) (K.written out.new) (counted (K.faults out.old) (K.wants out.old)) (counted (K.faults out.new) (K.wants out.new)) (L.read_faults link.old, L.read_faults link.new) (L.write_faults link.old, L.write_faults link.new) (D.faults disk.old, D.faults disk.new)) × (result ≢ Status.Store) }
    ensures same { D.told disk.new ≡ D.told disk.old }
    ensures time { D.time disk.old ≤ D.time disk.new }
    ensures count { D.faults disk.old ≤ D.faults disk.new }
{
    match run_ship(rt, alloc, tries, log, link, disk) {
        Ok(ending) => finish_run(alloc, ending, out),
        Err(stop) => break_off(stop, out),
    }
}

/// Prints the last line of a run that is over.
fn finish_run<K: Sink>(alloc: Global, ending: ShipEnding, out: &mut K) -> Status
    ensures { PrintsEnding ending (K.written out.old) (K.written out.new) (counted (K.faults out.old) (K.wants out.old)) (counted (K.faults out.new) (K.wants out.new)) result }
{
    match ending {
        ShipEnding::Done(count) => finish_well(alloc, count, out),
        ShipEnding::NoAnswer(count) => give_up(alloc, count, out),
    }
}
