ghost use Rattle.std.specs.Prelude.{◌≡◌, ◌+◌, ◌≤◌, true, false};
ghost use Rattle.mj_machine.specs.MachineState.{Machine};
ghost use Rattle.mj_prog.specs.Made.{Begins, IsRun, Made};
ghost use Rattle.mj_prog.specs.Reads.{ReadsNoFurther};
ghost use Rattle.mj_prog.specs.Running;
ghost use Rattle.mj_prog.specs.Running.{IsFileRefused, IsFresh, IsHalted, IsUntaken, HaltCause, fault_counts};
ghost use Rattle.mj_words.specs.SinkCounts.{AreLater, counted};
ghost use Rattle.mj_prog.specs.declared.halt.Halt;
ghost use Rattle.mj_prog.specs.declared.halt.StoreFault.{StoreFault as AnyStoreFault};
ghost use Rattle.mj_serve.specs.Serving.{IsLeftAlone};
ghost use Rattle.mj_store.specs.Opening.{NoneLawful};
ghost use Rattle.mj_store.specs.Standing.{IsTelling};

use super::halt::{Halt, halt_of};
use super::progress::Progress;
use super::script_ports::{ScriptPorts, Stage};
use super::words::Options;
use mj_base::{Limits, Sink, Source, WriteAnswer};
use mj_disk::Disk;
use mj_serve::{ServeFault, Summary, serve};
use std::alloc::Global;

/// How a run went.
#[derive(Drop)]
pub struct Run {
    /// Why it ended.
    pub halt: Halt,
    /// Events that were taken, where it ended well.
    pub events: u64,
}

/// Runs the broker over the script, with the tickets of the file that the disk is, or without a store.
pub fn run_script<S: Source, D: Disk, K: Sink>(
    alloc: Global,
    progress: &mut Progress,
    options: Options,
    src: &mut S,
    disk: &mut D,
    out: &mut K,
) -> Run
    requires lanes { progress.old.lanes ≤ 64 }
    requires fresh { IsFresh progress.old }
    ensures ran { (first : Machine) → Begins options.stored options.seed (D.told disk.old) first → (made : Made) × IsRun D.Disk disk.old disk.new first made × IsHalted progress.old.lanes first made (S.left src.old) (S.left src.new) (K.written out.old) (K.written out.new) result.events result.halt }
    ensures later { AreLater (counted (K.faults out.old) (K.wants out.old)) (counted (K.faults out.new) (K.wants out.new)) }
    ensures no_further { ReadsNoFurther progress.old.lanes (S.left src.old) (S.last src.old) (S.last src.new) }
    ensures misses { S.misses src.new ≤ S.misses src.old + 1 }
    ensures cause { HaltCause (fault_counts (D.faults disk.old) (D.faults disk.new) (S.faults src.old) (S.faults src.new) (K.faults out.old)) (K.faults out.new) result.halt }
    ensures untouched { result.halt ≡ Halt.Disk → (src.new ≡ src.old) × (out.new ≡ out.old) }
    ensures refused { (fault : AnyStoreFault) → result.halt ≡ Halt.Store fault → IsTelling D.Disk disk.old → (options.stored ≡ true) × (src.new ≡ src.old) × (out.new ≡ out.old) × IsFileRefused fault (D.told disk.old) (D.told disk.new) }
    ensures unlawful { options.stored ≡ true → IsTelling D.Disk disk.old → NoneLawful (D.told disk.old) → IsUntaken result.halt × (src.new ≡ src.old) × (out.new ≡ out.old) }
    ensures alone { options.stored ≡ false → IsLeftAlone (D.time disk.old) (D.told disk.old) (D.told disk.new) }
{
    let mut ports = ScriptPorts {
        alloc,
        progress,
        source: src,
        sink: out,
        stage: Stage::Going,
        wrote: WriteAnswer::Done,
    };
    let answer = serve(
        alloc,
        &Limits::standard(),
        options.seed,
        options.stored,
        &mut ports,
        disk,
    );
    Run {
        halt: halt_of(&answer, ports.stage, ports.wrote),
        events: events_of(&answer),
    }
}

fn events_of(answer: &Result<Summary, ServeFault>) -> u64
    ensures { result ≡ Running.events_of answer.now }
{
    match answer {
        Ok(summary) => summary.events,
        Err(_fault) => 0,
    }
}
