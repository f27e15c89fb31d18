ghost use Rattle.std.specs.Prelude.{◌≡◌, ◌≤◌, true, false, Option, Some, None, Result, Ok, Err};
ghost use Rattle.mj_gen.specs.Finishing.{IsFinished};
ghost use Rattle.mj_gen.specs.Generating.{Generates, HasRun};
ghost use Rattle.mj_gen.specs.Answering.{answered};
ghost use Rattle.mj_gen.specs.Statuses.{code_of};
ghost use Rattle.mj_words.specs.SinkCounts.{counted};

use crate::counts::Counts;
use crate::finishing::finish;
use crate::ports::GenPorts;
use crate::status::Status;
use mj_base::{Limits, Sink};
use mj_disk::Disk;
use mj_serve::{ServeFault, Summary, serve};
use std::alloc::Global;

/// Runs the generated load of so many requests, 1 to 60,000, through the broker at standard limits, with the tickets of the file
/// that the disk is, or without a store, and prints what it did: `events`, `pieces`, `octets` (the bytes of all pieces), `ends`
/// and `done`, a line each.
pub fn generate<D: Disk, K: Sink>(
    alloc: Global,
    n: u64,
    stored: bool,
    disk: &mut D,
    out: &mut K,
) -> Status
    requires some { 1 ≤ n }
    requires few { n ≤ 60000 }
    ensures { Generates D.Disk n stored disk.old disk.new (K.written out.old) (K.written out.new) (counted (K.faults out.old) (K.wants out.old)) (counted (K.faults out.new) (K.wants out.new)) (code_of result) }
{
    let answer = run(alloc, n, stored, disk);
    finish(alloc, answer, out)
}

/// Runs the load, and counts.
fn run<D: Disk>(alloc: Global, n: u64, stored: bool, disk: &mut D) -> Result<Counts, ServeFault>
    requires some { 1 ≤ n }
    requires few { n ≤ 60000 }
    ensures { HasRun D.Disk n stored disk.old disk.new result }
{
    let mut ports = GenPorts::new(alloc, n, stored);
    let served = serve(
        alloc,
        &Limits::standard(),
        [0; 32],
        stored,
        &mut ports,
        disk,
    );
    answer_of(&served, ports.shut, ports.counts)
}

/// How a run ended that gave this answer: an act on the disk failed, a number is too large, or these are the numbers.
fn answer_of(
    served: &Result<Summary, ServeFault>,
    shut: bool,
    counts: Option<Counts>,
) -> Result<Counts, ServeFault>
    ensures { result ≡ answered served.now shut counts }
{
    match served {
        Err(fault) => Err(*fault),
        Ok(_summary) => {
            if shut {
                Err(ServeFault::DiskFault)
            } else {
                counts.ok_or(ServeFault::NoMemory)
            }
        }
    }
}
