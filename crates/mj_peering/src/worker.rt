//! The run of a worker over a link.
ghost use Rattle.std.specs.Prelude.{◌≡◌, false, OnOk, OnErr, IfOk, IfErr};
ghost use Rattle.mj_base.specs.declared.link.LinkEvent.{LinkEvent as AnEvent};
ghost use Rattle.mj_peer.specs.WorkerEndRules.{Met, Worker};
ghost use Rattle.mj_peer.specs.WorkerStands.{Stands};
ghost use Rattle.mj_peering.specs.Performing.{AreLater, Breaks, Cause, PerformCause, Performs, counts, places};
ghost use Rattle.mj_peering.specs.WorkerRun.{BrokeOff, Halted, Left, Turned, Worked, leaving_in};

use super::leaving::{Leaving, leaving_among};
use super::performing::perform_all;
use super::reading::read_event;
use super::stop::Stop;
use mj_base::{Link, Sink};
use mj_peer::{Acts, WorkerEnd};
use std::alloc::Global;
use std::sync::Wait;

/// Starts the end and meets what the link gives, until the worker leaves; answers how it left.
pub fn run_worker<R: Wait, L: Link, K: Sink>(
    rt: &R,
    alloc: Global,
    end: &mut WorkerEnd,
    link: &mut L,
    out: &mut K,
) -> Result<Leaving, Stop>
    requires { end.old.spent ≡ false }
    ensures ran { IfOk result (λ leaving. (first : Worker) → Stands end.old.post first → Left leaving first (places (L.told link.old) (K.written out.old)) (places (L.told link.new) (K.written out.new)) end.new.post) }
    ensures halted { IfErr result (λ stop. (first : Worker) → Stands end.old.post first → Halted stop first (places (L.told link.old) (K.written out.old)) (places (L.told link.new) (K.written out.new))) }
    ensures cause { IfErr result (λ stop. Cause stop (counts (L.read_faults link.old) (L.write_faults link.old) (K.faults out.old) (K.wants out.old)) (counts (L.read_faults link.new) (L.write_faults link.new) (K.faults out.new) (K.wants out.new))) }
    ensures later { AreLater (counts (L.read_faults link.old) (L.write_faults link.old) (K.faults out.old) (K.wants out.old)) (counts (L.read_faults link.new) (L.write_faults link.new) (K.faults out.new) (K.wants out.new)) }
{
    start(alloc, end, link, out)?;
    for _ in rt.forever() {
        match meet(alloc, end, link, out)? {
            Some(leaving) => return Ok(leaving),
            None => {}
        }
    }
    unreachable!()
}

/// The end's first call.
fn start<L: Link, K: Sink>(
    alloc: Global,
    end: &mut WorkerEnd,
    link: &mut L,
    out: &mut K,
) -> Result<(), Stop>
    requires { end.old.spent ≡ false }
    ensures worked { OnOk result ((first : Worker) → Stands end.old.post first → Worked first (places (L.told link.old) (K.written out.old)) (places (L.told link.new) (K.written out.new)) end.new.post) }
    ensures halted { IfErr result (λ stop. (first : Worker) → Stands end.old.post first → Halted stop first (places (L.told link.old) (K.written out.old)) (places (L.told link.new) (K.written out.new))) }
    ensures cause { IfErr result (λ stop. Cause stop (counts (L.read_faults link.old) (L.write_faults link.old) (K.faults out.old) (K.wants out.old)) (counts (L.read_faults link.new) (L.write_faults link.new) (K.faults out.new) (K.wants out.new))) }
    ensures later { AreLater (counts (L.read_faults link.old) (L.write_faults link.old) (K.faults out.old) (K.wants out.old)) (counts (L.read_faults link.new) (L.write_faults link.new) (K.faults out.new) (K.wants out.new)) }
    ensures ready { OnOk result (end.new.spent ≡ false) }
{
    let acts = end.start(alloc)?;
    perform_all(alloc, &acts, link, out)
}

/// Meets what the link gives next; answers how the worker left by it, if it did.
fn meet<L: Link, K: Sink>(
    alloc: Global,
    end: &mut WorkerEnd,
    link: &mut L,
    out: &mut K,
) -> Result<Option<Leaving>, Stop>
    requires { end.old.spent ≡ false }
    ensures done { IfOk result (λ leaving. (event : AnEvent) × Turned leaving end.old.post end.new.post (places (L.told link.old) (K.written out.old)) (places (L.told link.new) (K.written out.new)) (Met event)) }
    ensures broken { IfErr result (λ stop. BrokeOff stop end.old.post (places (L.told link.old) (K.written out.old)) (places (L.told link.new) (K.written out.new))) }
    ensures cause { IfErr result (λ stop. Cause stop (counts (L.read_faults link.old) (L.write_faults link.old) (K.faults out.old) (K.wants out.old)) (counts (L.read_faults link.new) (L.write_faults link.new) (K.faults out.new) (K.wants out.new))) }
    ensures later { AreLater (counts (L.read_faults link.old) (L.write_faults link.old) (K.faults out.old) (K.wants out.old)) (counts (L.read_faults link.new) (L.write_faults link.new) (K.faults out.new) (K.wants out.new)) }
    ensures ready { OnOk result (end.new.spent ≡ false) }
{
    let event = read_event(alloc, link)?;
    let acts = end.step(alloc, event)?;
    do_acts(alloc, &acts, link, out)
}

/// Does these acts; answers how the worker leaves by them, if it does.
fn do_acts<L: Link, K: Sink>(
    alloc: Global,
    acts: &Acts,
    link: &mut L,
    out: &mut K,
) -> Result<Option<Leaving>, Stop>
    ensures done { IfOk result (λ leaving. Performs (places (L.told link.old) (K.written out.old)) (places (L.told link.new) (K.written out.new)) acts.now × (leaving ≡ leaving_in acts.now)) }
    ensures broken { OnErr result (Breaks (places (L.told link.old) (K.written out.old)) (places (L.told link.new) (K.written out.new)) acts.now) }
    ensures cause { IfErr result (λ stop. PerformCause stop (counts (L.read_faults link.old) (L.write_faults link.old) (K.faults out.old) (K.wants out.old)) (counts (L.read_faults link.new) (L.write_faults link.new) (K.faults out.new) (K.wants out.new))) }
    ensures later { AreLater (counts (L.read_faults link.old) (L.write_faults link.old) (K.faults out.old) (K.wants out.old)) (counts (L.read_faults link.new) (L.write_faults link.new) (K.faults out.new) (K.wants out.new)) }
{
    perform_all(alloc, acts, link, out)?;
    Ok(leaving_among(acts.as_slice()))
}
