ghost use Rattle.std.specs.Prelude.{◌≡◌, ◌↔◌, ◌≤◌, ◌<◌, ◌^◌, ◌⊎◌, ℕ, List, [], true, false, None, Result, Ok, IfSome, map, string_bytes};
ghost use Rattle.std.specs.Io.KnownBytes.{Appends};
ghost use Rattle.mj_base.specs.LawfulLimits.{are_lawful};
ghost use Rattle.mj_base.specs.Rising.{Rose};
ghost use Rattle.mj_base.specs.StandardLimits.{standard_limits};
ghost use Rattle.mj_host.specs.Finishing.{IsFinished};
ghost use Rattle.mj_host.specs.Hosting.{HasRun};
ghost use Rattle.mj_host.specs.Statuses.{IsStatus, code_of};
ghost use Rattle.mj_host.specs.Words.{has_store, numbers_in};
ghost use Rattle.mj_host.specs.declared.status.Status.{Status as AnyStatus};
ghost use Rattle.mj_serve.specs.declared.fault.ServeFault.{ServeFault as AnyFault};
ghost use Rattle.mj_serve.specs.declared.summary.Summary.{Summary as AnySummary};
ghost use Rattle.mj_store.specs.Opening.{NoneLawful, OpensLawfully};
ghost use Rattle.mj_store.specs.Standing.{IsTelling};
ghost use Rattle.mj_tickets.specs.declared.command.TicketCmd.{TicketCmd as AnyCmd};
ghost use Rattle.mj_words.specs.Lines.{AppendsLine, done_line, fault_words};
ghost use Rattle.mj_words.specs.SinkCounts.{counted};

use super::finishing::finish;
use super::status::{Status, code};
use super::words;
use super::words::broker_words;
use mj_base::{Limits, Sink};
use mj_disk::Disk;
use mj_serve::{Ports, ServeFault, Summary, serve};
use mj_words::complain;
use std::alloc::Global;

/// Serves the ports' lanes until they give the end, as the words ask, which are those behind the program's name, and prints
/// `done` with the number of events that were taken. The answer is the status that the program exits with.
pub fn broker<P: Ports, D: Disk, K: Sink>(
    alloc: Global,
    words: &[String],
    seed: [u8; 32],
    ports: &mut P,
    disk: &mut D,
    out: &mut K,
) -> u8
    requires lanes { P.lanes_in ports.old ≤ 64 }
    requires going { P.stopped ports.old ≡ false }
    requires few { P.left ports.old < 2 ^ 60 }
    ensures statuses { IsStatus result }
    ensures words { (result ≡ 1) ↔ (numbers_in (map string_bytes words.now) ≡ None) }
    ensures refused_words { result ≡ 1 → (ports.new ≡ ports.old) × (disk.new ≡ disk.old) × AppendsLine (K.written out.old) (K.written out.new) (counted (K.faults out.old) (K.wants out.old)) (counted (K.faults out.new) (K.wants out.new)) [] fault_words }

    ensures done { result ≡ 0 → IfSome (numbers_in (map string_bytes words.now)) (λ _. (summary : AnySummary) × HasRun P.stand P.stopped D.Disk standard_limits seed (has_store (map string_bytes words.now)) ports.old disk.old ports.new disk.new (Ok summary) × Appends (K.written out.old) (K.written out.new) (done_line summary.events)) }
    ensures store { result ≡ 3 → IfSome (numbers_in (map string_bytes words.now)) (λ _. NoneLawful (D.told disk.old)) }
    ensures opening { result ≡ 5 → IfSome (numbers_in (map string_bytes words.now)) (λ _. Rose (D.faults disk.old) (D.faults disk.new) × (ports.new ≡ ports.old)) }
    ensures write { result ≡ 7 → IfSome (numbers_in (map string_bytes words.now)) (λ _. Rose (K.faults out.old) (K.faults out.new)) }

    // No other status than 0 and 4 where nothing failed, over a file that opens as a lawful list or without a store.
    ensures complete { IfSome (numbers_in (map string_bytes words.now)) (λ _. (base : ℕ) (commands : List AnyCmd) → (has_store (map string_bytes words.now) ≡ true → OpensLawfully base commands (D.told disk.old)) → (has_store (map string_bytes words.now) ≡ false → IsTelling D.Disk disk.old) → ¬ Rose (D.faults disk.old) (D.faults disk.new) → ¬ Rose (K.faults out.old) (K.faults out.new) → (result ≡ 0) ⊎ (result ≡ 4)) }

    // A run at standard limits gave some answer, which the status and the last line tell.
    ensures ran { IfSome (numbers_in (map string_bytes words.now)) (λ _. (answer : Result AnySummary AnyFault) × (status : AnyStatus) × HasRun P.stand P.stopped D.Disk standard_limits seed (has_store (map string_bytes words.now)) ports.old disk.old ports.new disk.new answer × IsFinished answer status (K.written out.old) (K.written out.new) (counted (K.faults out.old) (K.wants out.old)) (counted (K.faults out.new) (K.wants out.new)) × (result ≡ code_of status)) }
{
    code(run_broker(alloc, words, seed, ports, disk, out))
}

fn run_broker<P: Ports, D: Disk, K: Sink>(
    alloc: Global,
    words: &[String],
    seed: [u8; 32],
    ports: &mut P,
    disk: &mut D,
    out: &mut K,
) -> Status
    requires lanes { P.lanes_in ports.old ≤ 64 }
    requires going { P.stopped ports.old ≡ false }
    requires few { P.left ports.old < 2 ^ 60 }
    ensures words { (result ≡ Status.Words) ↔ (numbers_in (map string_bytes words.now) ≡ None) }
    ensures refused_words { result ≡ Status.Words → (ports.new ≡ ports.old) × (disk.new ≡ disk.old) × AppendsLine (K.written out.old) (K.written out.new) (counted (K.faults out.old) (K.wants out.old)) (counted (K.faults out.new) (K.wants out.new)) [] fault_words }
    ensures ran { IfSome (numbers_in (map string_bytes words.now)) (λ _. (answer : Result AnySummary AnyFault) × HasRun P.stand P.stopped D.Disk standard_limits seed (has_store (map string_bytes words.now)) ports.old disk.old ports.new disk.new answer × IsFinished answer result (K.written out.old) (K.written out.new) (counted (K.faults out.old) (K.wants out.old)) (counted (K.faults out.new) (K.wants out.new))) }
{
    match broker_words(words) {
        Some(_numbers) => {
            let stored = words::has_store(words);
            let answer = run(alloc, &Limits::standard(), seed, stored, ports, disk);
            finish(alloc, &answer, out)
        }
        None => {
            complain(b"fault words\n", out);
            Status::Words
        }
    }
}

fn run<P: Ports, D: Disk>(
    alloc: Global,
    limits: &Limits,
    seed: [u8; 32],
    stored: bool,
    ports: &mut P,
    disk: &mut D,
) -> Result<Summary, ServeFault>
    requires lawful { stored ≡ true → are_lawful limits.now ≡ true }
    requires lanes { P.lanes_in ports.old ≤ limits.now.lanes }
    requires going { P.stopped ports.old ≡ false }
    requires few { P.left ports.old < 2 ^ 60 }
    ensures { HasRun P.stand P.stopped D.Disk limits.now seed stored ports.old disk.old ports.new disk.new result }
{
    serve(alloc, limits, seed, stored, ports, disk)
}
