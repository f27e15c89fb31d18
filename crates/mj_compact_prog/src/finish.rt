ghost use Rattle.std.specs.Prelude.{◌≡◌, [], string_bytes};
ghost use Rattle.mj_words.specs.SinkCounts.{counted};
ghost use Rattle.mj_compact_prog.specs.Endings.{Ends, Halts, PrintsDone, Refuses, status_after};
ghost use Rattle.mj_compact_prog.specs.Halts.{fault_disk};

use super::halt::{Halt, Refusal, halt_of};
use super::line::{done_line, store_line};
use super::status::Status;
use mj_base::{NoMemory, Sink, WriteAnswer};
use mj_compact::CompactFault;
use mj_words::complain;
use std::alloc::Global;

/// Prints the last line of a compaction, if it has one, and says how it ended.
pub(crate) fn finish<K: Sink>(alloc: Global, made: Result<u64, CompactFault>, out: &mut K) -> Status
    ensures { Ends made (K.written out.old) (K.written out.new) (counted (K.faults out.old) (K.wants out.old)) (counted (K.faults out.new) (K.wants out.new)) result }
{
    match made {
        Ok(count) => finish_well(alloc, count, out),
        Err(fault) => break_off(alloc, halt_of(fault), out),
    }
}

/// Prints `done N`.
fn finish_well<K: Sink>(alloc: Global, count: u64, out: &mut K) -> Status
    ensures { PrintsDone count (K.written out.old) (K.written out.new) (counted (K.faults out.old) (K.wants out.old)) (counted (K.faults out.new) (K.wants out.new)) result }
{
    match done_line(alloc, count) {
        Ok(line) => status_of(out.write(line.as_bytes())),
        Err(NoMemory) => Status::NoMemory,
    }
}

fn status_of(answer: WriteAnswer) -> Status
    ensures { result ≡ status_after answer }
{
    match answer {
        WriteAnswer::Done => Status::Done,
        WriteAnswer::NoMemory => Status::NoMemory,
        WriteAnswer::Failed => Status::Write,
    }
}

fn break_off<K: Sink>(alloc: Global, halt: Halt, out: &mut K) -> Status
    ensures { Halts halt (K.written out.old) (K.written out.new) (counted (K.faults out.old) (K.wants out.old)) (counted (K.faults out.new) (K.wants out.new)) result }
{
    match halt {
        Halt::Refused(refusal) => refuse(alloc, refusal, out),
        Halt::NoMemory => Status::NoMemory,
        Halt::Disk => {
            complain(b"fault disk\n", out);
            Status::Disk
        }
    }
}

/// Prints why a file is refused. That it can't be printed changes no status, but there has to be memory to make it.
fn refuse<K: Sink>(alloc: Global, refusal: Refusal, out: &mut K) -> Status
    ensures { Refuses refusal (K.written out.old) (K.written out.new) (counted (K.faults out.old) (K.wants out.old)) (counted (K.faults out.new) (K.wants out.new)) result }
{
    match store_line(alloc, refusal) {
        Ok(line) => {
            complain(line.as_bytes(), out);
            Status::Store
        }
        Err(NoMemory) => Status::NoMemory,
    }
}
