ghost use Rattle.std.specs.Prelude.{◌≡◌, [], IfOk, string_bytes};
ghost use Rattle.mj_host.specs.Finishing;
ghost use Rattle.mj_host.specs.Finishing.{IsDone, IsFinished, IsRefused, status_for};
ghost use Rattle.mj_words.specs.Lines;
ghost use Rattle.mj_words.specs.SinkCounts.{counted};

use super::status::Status;
use mj_base::{NoMemory, Sink, WriteAnswer};
use mj_serve::{ServeFault, Summary};
use mj_words::complain;
use std::alloc::Global;

/// Prints the last line of a run that gave this answer, and says how the call ended.
pub fn finish<K: Sink>(alloc: Global, answer: &Result<Summary, ServeFault>, out: &mut K) -> Status
    ensures { IsFinished answer.now result (K.written out.old) (K.written out.new) (counted (K.faults out.old) (K.wants out.old)) (counted (K.faults out.new) (K.wants out.new)) }
{
    match answer {
        Ok(summary) => finish_well(alloc, summary.events, out),
        Err(ServeFault::NoMemory) => Status::NoMemory,
        Err(fault) => refuse(alloc, *fault, out),
    }
}

/// Prints `done N`.
fn finish_well<K: Sink>(alloc: Global, events: u64, out: &mut K) -> Status
    ensures { IsDone events result (K.written out.old) (K.written out.new) (counted (K.faults out.old) (K.wants out.old)) (counted (K.faults out.new) (K.wants out.new)) }
{
    match done_line(alloc, events) {
        Ok(line) => match out.write(line.as_bytes()) {
            WriteAnswer::Done => Status::Done,
            WriteAnswer::NoMemory => Status::NoMemory,
            WriteAnswer::Failed => Status::Write,
        },
        Err(NoMemory) => Status::NoMemory,
    }
}

/// Prints why a run ended early. That it can't be printed changes no status, but there has to be memory to make it.
fn refuse<K: Sink>(alloc: Global, fault: ServeFault, out: &mut K) -> Status
    ensures { IsRefused fault result (K.written out.old) (K.written out.new) (counted (K.faults out.old) (K.wants out.old)) (counted (K.faults out.new) (K.wants out.new)) }
{
    match fault_line(alloc, fault) {
        Ok(line) => {
            complain(line.as_bytes(), out);
            status_of(fault)
        }
        Err(NoMemory) => Status::NoMemory,
    }
}

fn status_of(fault: ServeFault) -> Status
    ensures { result ≡ status_for fault }
{
    match fault {
        ServeFault::NotAStore | ServeFault::Version(_) | ServeFault::Damaged(_) => Status::Store,
        ServeFault::DiskFault => Status::Disk,
        ServeFault::NoMemory => Status::NoMemory,
    }
}

fn done_line(alloc: Global, events: u64) -> Result<String, NoMemory>
    ensures { IfOk result (λ line. string_bytes line ≡ Lines.done_line events) }
{
    Ok(format!(in alloc; "done {events}\n")?)
}

fn fault_line(alloc: Global, fault: ServeFault) -> Result<String, NoMemory>
    ensures { IfOk result (λ line. string_bytes line ≡ Finishing.fault_line fault) }
{
    match fault {
        ServeFault::NotAStore => Ok(String::from_str(alloc, "fault store not-a-store\n")?),
        ServeFault::Version(version) => Ok(format!(in alloc; "fault store version {version}\n")?),
        ServeFault::Damaged(at) => Ok(format!(in alloc; "fault store damaged {at}\n")?),
        ServeFault::DiskFault => Ok(String::from_str(alloc, "fault disk\n")?),
        ServeFault::NoMemory => Ok(String::new(alloc)),
    }
}
