ghost use Rattle.std.specs.Prelude.{◌≡◌, [], IfOk, string_bytes};
ghost use Rattle.mj_gen.specs.Finishing;
ghost use Rattle.mj_gen.specs.Finishing.{IsFinished, IsRefused, IsTold, status_for};
ghost use Rattle.mj_words.specs.SinkCounts.{counted};

use crate::counts::{Counts, text_of};
use crate::status::Status;
use mj_base::{NoMemory, Sink, WriteAnswer};
use mj_serve::ServeFault;
use mj_words::complain;
use std::alloc::Global;

/// Prints what a run was in numbers, or why it ended early, and says how the call ended.
pub fn finish<K: Sink>(alloc: Global, answer: Result<Counts, ServeFault>, out: &mut K) -> Status
    ensures { IsFinished answer result (K.written out.old) (K.written out.new) (counted (K.faults out.old) (K.wants out.old)) (counted (K.faults out.new) (K.wants out.new)) }
{
    match answer {
        Ok(counts) => tell(alloc, counts, out),
        Err(ServeFault::NoMemory) => Status::NoMemory,
        Err(fault) => refuse(alloc, fault, out),
    }
}

/// Prints the five lines.
fn tell<K: Sink>(alloc: Global, counts: Counts, out: &mut K) -> Status
    ensures { IsTold counts result (K.written out.old) (K.written out.new) (counted (K.faults out.old) (K.wants out.old)) (counted (K.faults out.new) (K.wants out.new)) }
{
    match text_of(alloc, counts) {
        Ok(text) => match out.write(text.as_bytes()) {
            WriteAnswer::Done => Status::Done,
            WriteAnswer::NoMemory => Status::NoMemory,
            WriteAnswer::Failed => Status::Write,
        },
        Err(NoMemory) => Status::NoMemory,
    }
}

/// Prints why a run ended early. That it can't be printed changes no status, but there has to be memory to make it.
fn refuse<K: Sink>(alloc: Global, fault: ServeFault, out: &mut K) -> Status
    ensures { IsRefused fault result (K.written out.old) (K.written out.new) (counted (K.faults out.old) (K.wants out.old)) (counted (K.faults out.new) (K.wants out.new)) }
{
    match fault_line(alloc, fault) {
        Ok(line) => {
            complain(line.as_bytes(), out);
            status_of(fault)
        }
        Err(NoMemory) => Status::NoMemory,
    }
}

fn status_of(fault: ServeFault) -> Status
    ensures { result ≡ status_for fault }
{
    match fault {
        ServeFault::NotAStore | ServeFault::Version(_) | ServeFault::Damaged(_) => Status::Store,
        ServeFault::DiskFault => Status::Disk,
        ServeFault::NoMemory => Status::NoMemory,
    }
}

fn fault_line(alloc: Global, fault: ServeFault) -> Result<String, NoMemory>
    ensures { IfOk result (λ line. string_bytes line ≡ Finishing.fault_line fault) }
{
    match fault {
        ServeFault::NotAStore => Ok(String::from_str(alloc, "fault store not-a-store\n")?),
        ServeFault::Version(version) => Ok(format!(in alloc; "fault store version {version}\n")?),
        ServeFault::Damaged(at) => Ok(format!(in alloc; "fault store damaged {at}\n")?),
        ServeFault::DiskFault => Ok(String::from_str(alloc, "fault disk\n")?),
        ServeFault::NoMemory => Ok(String::new(alloc)),
    }
}
