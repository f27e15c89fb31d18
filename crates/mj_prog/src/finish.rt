ghost use Rattle.std.specs.Prelude.{◌≡◌, ◌+◌, ◌≤◌, ℕ, List, [], Option, length, IfOk, string_bytes};
ghost use Rattle.std.specs.Io.KnownBytes.{Appends};
ghost use Rattle.mj_machine.specs.MachineState.{Machine};
ghost use Rattle.mj_prog.specs.Made.{Made};
ghost use Rattle.mj_prog.specs.Running.{FaultCounts, IsHalted, IsUntaken, HaltCause};
ghost use Rattle.mj_prog.specs.Shown;
ghost use Rattle.mj_prog.specs.Shown.{fault_disk};
ghost use Rattle.mj_prog.specs.StatusRows.{IsRow, IsUnopened, PrintsDone, Refuses, RefusesOpening, StatusCause, status_after};
ghost use Rattle.mj_words.specs.Lines.{AppendsLine};
ghost use Rattle.mj_words.specs.SinkCounts.{SinkCounts, AreLater, counted};
ghost use Rattle.mj_prog.specs.declared.halt.Halt;
ghost use Rattle.mj_prog.specs.declared.halt.StoreFault.{StoreFault as AnyStoreFault};
ghost use Rattle.mj_prog.specs.declared.status.Status;

use super::halt::{Halt, StoreFault};
use super::print::{done_line, fault_line, store_line};
use super::status::Status;
use mj_base::{NoMemory, Sink, WriteAnswer};
use mj_store::OpenFault;
use mj_words::complain;
use std::alloc::Global;

/// Prints the last line of a run that took so many events, if it has one, and says how it ended.
pub fn finish<K: Sink>(alloc: Global, halt: Halt, events: u64, out: &mut K) -> Status
    ensures row { (lanes : ℕ) (first : Machine) (made : Made) (before : SinkCounts) (from left written : Option (List ℕ)) → AreLater before (counted (K.faults out.old) (K.wants out.old)) → IsHalted lanes first made from left written (K.written out.old) events halt → IsRow lanes first made from left written (K.written out.new) before (counted (K.faults out.new) (K.wants out.new)) result }
    ensures cause { (counts : FaultCounts) → counts.sink_before ≤ K.faults out.old → HaltCause counts (K.faults out.old) halt → StatusCause counts (K.faults out.new) result }
    ensures disk { result ≡ Status.Disk → (halt ≡ Halt.Disk) × AppendsLine (K.written out.old) (K.written out.new) (counted (K.faults out.old) (K.wants out.old)) (counted (K.faults out.new) (K.wants out.new)) [] fault_disk }
    ensures store { result ≡ Status.Store → (fault : AnyStoreFault) × (halt ≡ Halt.Store fault) × AppendsLine (K.written out.old) (K.written out.new) (counted (K.faults out.old) (K.wants out.old)) (counted (K.faults out.new) (K.wants out.new)) [] (Shown.store_line fault) }
    ensures untaken { IsUntaken halt → IsUnopened result }
    ensures words { ¬ (result ≡ Status.Words) }
{
    match halt {
        Halt::Over => finish_well(alloc, events, out),
        Halt::Line(number) => refuse(alloc, number, out),
        Halt::Store(fault) => refuse_store(alloc, fault, out),
        Halt::Disk => {
            complain(b"fault disk\n", out);
            Status::Disk
        }
        Halt::Read => {
            complain(b"fault read\n", out);
            Status::Read
        }
        Halt::Write => Status::Write,
        Halt::NoMemory => Status::NoMemory,
    }
}

/// Prints `done N`.
pub fn finish_well<K: Sink>(alloc: Global, events: u64, out: &mut K) -> Status
    ensures row { (lanes : ℕ) (first : Machine) (made : Made) (before : SinkCounts) (from left written : Option (List ℕ)) → AreLater before (counted (K.faults out.old) (K.wants out.old)) → IsHalted lanes first made from left written (K.written out.old) events Halt.Over → IsRow lanes first made from left written (K.written out.new) before (counted (K.faults out.new) (K.wants out.new)) result }
    ensures prints { PrintsDone events (K.written out.old) (K.written out.new) (K.faults out.old) (K.faults out.new) result }
    ensures cause { (counts : FaultCounts) → counts.sink_before ≤ K.faults out.old → HaltCause counts (K.faults out.old) Halt.Over → StatusCause counts (K.faults out.new) result }
    ensures opened { ¬ (result ≡ Status.Disk) }
    ensures served { ¬ (result ≡ Status.Store) }
    ensures words { ¬ (result ≡ Status.Words) }
{
    match done_line(alloc, events) {
        Ok(line) => status_of(out.write(line.as_bytes())),
        Err(NoMemory) => Status::NoMemory,
    }
}

fn status_of(answer: WriteAnswer) -> Status
    ensures after { result ≡ status_after answer }
    ensures opened { ¬ (result ≡ Status.Disk) }
    ensures served { ¬ (result ≡ Status.Store) }
    ensures words { ¬ (result ≡ Status.Words) }
{
    match answer {
        WriteAnswer::Done => Status::Done,
        WriteAnswer::NoMemory => Status::NoMemory,
        WriteAnswer::Failed => Status::Write,
    }
}

/// Prints that a line is unlawful. That it can't be printed changes no status, but there has to be memory to make it.
fn refuse<K: Sink>(alloc: Global, number: u64, out: &mut K) -> Status
    ensures row { (lanes : ℕ) (first : Machine) (made : Made) (before : SinkCounts) (from left written : Option (List ℕ)) (events : ℕ) → AreLater before (counted (K.faults out.old) (K.wants out.old)) → IsHalted lanes first made from left written (K.written out.old) events (Halt.Line number) → IsRow lanes first made from left written (K.written out.new) before (counted (K.faults out.new) (K.wants out.new)) result }
    ensures cause { (counts : FaultCounts) → StatusCause counts (K.faults out.new) result }
    ensures opened { ¬ (result ≡ Status.Disk) }
    ensures served { ¬ (result ≡ Status.Store) }
    ensures words { ¬ (result ≡ Status.Words) }
{
    match fault_line(alloc, number) {
        Ok(line) => {
            complain(line.as_bytes(), out);
            Status::Line
        }
        Err(NoMemory) => Status::NoMemory,
    }
}

/// Prints why the file is refused, as `refuse` prints a line's number.
fn refuse_store<K: Sink>(alloc: Global, fault: StoreFault, out: &mut K) -> Status
    ensures row { (lanes : ℕ) (first : Machine) (made : Made) (before : SinkCounts) (from left written : Option (List ℕ)) (events : ℕ) → AreLater before (counted (K.faults out.old) (K.wants out.old)) → IsHalted lanes first made from left written (K.written out.old) events (Halt.Store fault) → IsRow lanes first made from left written (K.written out.new) before (counted (K.faults out.new) (K.wants out.new)) result }
    ensures refuses { Refuses fault (K.written out.old) (K.written out.new) (counted (K.faults out.old) (K.wants out.old)) (counted (K.faults out.new) (K.wants out.new)) result }
    ensures opened { ¬ (result ≡ Status.Disk) }
    ensures store { result ≡ Status.Store → AppendsLine (K.written out.old) (K.written out.new) (counted (K.faults out.old) (K.wants out.old)) (counted (K.faults out.new) (K.wants out.new)) [] (Shown.store_line fault) }
    ensures unopened { IsUnopened result }
    ensures words { ¬ (result ≡ Status.Words) }
    ensures cause { (counts : FaultCounts) → StatusCause counts (K.faults out.new) result }
{
    match store_line(alloc, fault) {
        Ok(line) => {
            complain(line.as_bytes(), out);
            Status::Store
        }
        Err(NoMemory) => Status::NoMemory,
    }
}

/// Prints why the file wasn't opened.
pub fn refuse_opening<K: Sink>(alloc: Global, fault: OpenFault, out: &mut K) -> Status
    ensures { RefusesOpening fault (K.written out.old) (K.written out.new) (counted (K.faults out.old) (K.wants out.old)) (counted (K.faults out.new) (K.wants out.new)) result }
{
    match fault {
        OpenFault::NotAStore => refuse_store(alloc, StoreFault::NotAStore, out),
        OpenFault::Version(version) => refuse_store(alloc, StoreFault::Version(version), out),
        OpenFault::Damaged(at) => refuse_store(alloc, StoreFault::Damaged(at), out),
        OpenFault::DiskFault => {
            complain(b"fault disk\n", out);
            Status::Disk
        }
        OpenFault::NoMemory => Status::NoMemory,
    }
}
