//! The last line of a call, and the status that goes with it.
ghost use Rattle.std.specs.Prelude.{◌≡◌, [], string_bytes};
ghost use Rattle.mj_words.specs.SinkCounts.{counted};
ghost use Rattle.mj_copy_prog.specs.Endings.{Breaks, GivesUp, PrintsDone, Refuses, Unopened, status_after};

use super::line::{done_line, no_answer_line, store_line};
use super::refusal::Refusal;
use super::status::Status;
use mj_base::{NoMemory, Sink, WriteAnswer};
use mj_copying::Stop;
use mj_journal::OpenFault;
use mj_words::complain;
use std::alloc::Global;

/// Prints `done N`.
pub(crate) fn finish_well<K: Sink>(alloc: Global, count: u64, out: &mut K) -> Status
    ensures { PrintsDone count (K.written out.old) (K.written out.new) (counted (K.faults out.old) (K.wants out.old)) (counted (K.faults out.new) (K.wants out.new)) result }
{
    match done_line(alloc, count) {
        Ok(line) => status_of(out.write(line.as_bytes())),
        Err(NoMemory) => Status::NoMemory,
    }
}

fn status_of(answer: WriteAnswer) -> Status
    ensures { result ≡ status_after answer }
{
    match answer {
        WriteAnswer::Done => Status::Done,
        WriteAnswer::NoMemory => Status::NoMemory,
        WriteAnswer::Failed => Status::Write,
    }
}

/// Prints `fault no-answer N`. That it can't be printed changes no status, but there has to be memory to make it.
pub(crate) fn give_up<K: Sink>(alloc: Global, count: u64, out: &mut K) -> Status
    ensures { GivesUp count (K.written out.old) (K.written out.new) (counted (K.faults out.old) (K.wants out.old)) (counted (K.faults out.new) (K.wants out.new)) result }
{
    match no_answer_line(alloc, count) {
        Ok(line) => {
            complain(line.as_bytes(), out);
            Status::NoAnswer
        }
        Err(NoMemory) => Status::NoMemory,
    }
}

/// Prints why a file is refused.
pub(crate) fn refuse<K: Sink>(alloc: Global, refusal: Refusal, out: &mut K) -> Status
    ensures { Refuses refusal (K.written out.old) (K.written out.new) (counted (K.faults out.old) (K.wants out.old)) (counted (K.faults out.new) (K.wants out.new)) result }
{
    match store_line(alloc, refusal) {
        Ok(line) => {
            complain(line.as_bytes(), out);
            Status::Store
        }
        Err(NoMemory) => Status::NoMemory,
    }
}

/// Says why a run broke off.
pub(crate) fn break_off<K: Sink>(stop: Stop, out: &mut K) -> Status
    ensures { Breaks stop (K.written out.old) (K.written out.new) (counted (K.faults out.old) (K.wants out.old)) (counted (K.faults out.new) (K.wants out.new)) result }
{
    match stop {
        Stop::NoMemory => Status::NoMemory,
        Stop::Write => Status::Write,
        Stop::Read => {
            complain(b"fault read\n", out);
            Status::Read
        }
        Stop::Disk => {
            complain(b"fault disk\n", out);
            Status::Disk
        }
    }
}

/// Says why a file isn't opened.
pub(crate) fn unopened<K: Sink>(alloc: Global, fault: OpenFault, out: &mut K) -> Status
    ensures { Unopened fault (K.written out.old) (K.written out.new) (counted (K.faults out.old) (K.wants out.old)) (counted (K.faults out.new) (K.wants out.new)) result }
{
    match fault {
        OpenFault::NotAStore => refuse(alloc, Refusal::NotAStore, out),
        OpenFault::Version(version) => refuse(alloc, Refusal::Version(version), out),
        OpenFault::Damaged(at) => refuse(alloc, Refusal::Damaged(at), out),
        OpenFault::NoMemory => Status::NoMemory,
        OpenFault::DiskFault => break_off(Stop::Disk, out),
    }
}
