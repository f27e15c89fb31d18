ghost use Rattle.std.specs.Prelude.{◌≡◌, ◌≤◌, ℕ, List, Option, false, IfOk, IfErr};
ghost use Rattle.mj_peer.specs.WorkerStands.{Stands};
ghost use Rattle.mj_peering.specs.Performing.{AreLater, counts, places};
ghost use Rattle.mj_peer_prog.specs.PeerRuns.{ending_by, ending_of, worker_of};
ghost use Rattle.mj_peer_prog.specs.PeerTable.{scene};
ghost use Rattle.mj_peer_prog.specs.PeerWords.{IsLawful};
ghost use Rattle.mj_peer_prog.specs.StatusRows.{Begins, CameTo, IsHalted};
ghost use Rattle.mj_peer_prog.specs.declared.task.Asking.{Asking as AnAsking};
ghost use Rattle.mj_peer_prog.specs.declared.task.Serving.{Serving as AServing};
ghost use Rattle.mj_peer_prog.specs.declared.task.Task.TheVariants as tasks;

use super::ending::Ending;
use super::task::{Asking, Serving, Task};
use mj_base::{Link, Sink, Source};
use mj_peer::{ClientEnd, WorkerEnd};
use mj_peering::{Feed, Leaving, Stop, run_client, run_worker};
use std::alloc::Global;
use std::sync::Wait;

/// The run of a task over a link, up to its end or to where it breaks off.
pub(crate) fn run_task<R: Wait, L: Link, S: Source, K: Sink>(
    rt: &R,
    alloc: Global,
    task: Task,
    link: &mut L,
    src: &mut S,
    out: &mut K,
) -> Result<Ending, Stop>
    requires { IsLawful task }
    ensures over { IfOk result (CameTo task (scene (S.left src.old) (places (L.told link.old) (K.written out.old)) (places (L.told link.new) (K.written out.new)) (counts (L.read_faults link.old) (L.write_faults link.old) (K.faults out.old) (K.wants out.old)) (counts (L.read_faults link.new) (L.write_faults link.new) (K.faults out.new) (K.wants out.new)) (S.faults src.old) (S.faults src.new))) }
    ensures halted { IfErr result (λ stop. IsHalted stop task (scene (S.left src.old) (places (L.told link.old) (K.written out.old)) (places (L.told link.new) (K.written out.new)) (counts (L.read_faults link.old) (L.write_faults link.old) (K.faults out.old) (K.wants out.old)) (counts (L.read_faults link.new) (L.write_faults link.new) (K.faults out.new) (K.wants out.new)) (S.faults src.old) (S.faults src.new))) }
    ensures later { AreLater (counts (L.read_faults link.old) (L.write_faults link.old) (K.faults out.old) (K.wants out.old)) (counts (L.read_faults link.new) (L.write_faults link.new) (K.faults out.new) (K.wants out.new)) }
{
    match task {
        Task::Client(asking) => ask_all(rt, alloc, asking, link, src, out),
        Task::Worker(serving) => serve_all(rt, alloc, serving, link, out),
    }
}

fn ask_all<R: Wait, L: Link, S: Source, K: Sink>(
    rt: &R,
    alloc: Global,
    asking: Asking,
    link: &mut L,
    src: &mut S,
    out: &mut K,
) -> Result<Ending, Stop>
    requires tries { 1 ≤ asking.tries }
    requires wait { 1 ≤ asking.wait }
    ensures over { IfOk result (CameTo (tasks.Client asking) (scene (S.left src.old) (places (L.told link.old) (K.written out.old)) (places (L.told link.new) (K.written out.new)) (counts (L.read_faults link.old) (L.write_faults link.old) (K.faults out.old) (K.wants out.old)) (counts (L.read_faults link.new) (L.write_faults link.new) (K.faults out.new) (K.wants out.new)) (S.faults src.old) (S.faults src.new))) }
    ensures halted { IfErr result (λ stop. IsHalted stop (tasks.Client asking) (scene (S.left src.old) (places (L.told link.old) (K.written out.old)) (places (L.told link.new) (K.written out.new)) (counts (L.read_faults link.old) (L.write_faults link.old) (K.faults out.old) (K.wants out.old)) (counts (L.read_faults link.new) (L.write_faults link.new) (K.faults out.new) (K.wants out.new)) (S.faults src.old) (S.faults src.new))) }
    ensures later { AreLater (counts (L.read_faults link.old) (L.write_faults link.old) (K.faults out.old) (K.wants out.old)) (counts (L.read_faults link.new) (L.write_faults link.new) (K.faults out.new) (K.wants out.new)) }
{
    let mut end = ClientEnd::new(
        alloc,
        asking.version,
        asking.service,
        asking.tries,
        asking.wait,
    )?;
    let mut feed = Feed::new(alloc)?;
    ask_each(rt, alloc, &mut end, &mut feed, link, src, out)
}

/// The run of a new client.
fn ask_each<R: Wait, L: Link, S: Source, K: Sink>(
    rt: &R,
    alloc: Global,
    end: &mut ClientEnd,
    feed: &mut Feed,
    link: &mut L,
    src: &mut S,
    out: &mut K,
) -> Result<Ending, Stop>
    requires { end.old.spent ≡ false }
    ensures over { IfOk result (λ ending. (a : AnAsking) → Begins a end.old.session feed.old (S.left src.old) → CameTo (tasks.Client a) (scene (S.left src.old) (places (L.told link.old) (K.written out.old)) (places (L.told link.new) (K.written out.new)) (counts (L.read_faults link.old) (L.write_faults link.old) (K.faults out.old) (K.wants out.old)) (counts (L.read_faults link.new) (L.write_faults link.new) (K.faults out.new) (K.wants out.new)) (S.faults src.old) (S.faults src.new)) ending) }
    ensures halted { IfErr result (λ stop. (a : AnAsking) → Begins a end.old.session feed.old (S.left src.old) → IsHalted stop (tasks.Client a) (scene (S.left src.old) (places (L.told link.old) (K.written out.old)) (places (L.told link.new) (K.written out.new)) (counts (L.read_faults link.old) (L.write_faults link.old) (K.faults out.old) (K.wants out.old)) (counts (L.read_faults link.new) (L.write_faults link.new) (K.faults out.new) (K.wants out.new)) (S.faults src.old) (S.faults src.new))) }
    ensures later { AreLater (counts (L.read_faults link.old) (L.write_faults link.old) (K.faults out.old) (K.wants out.old)) (counts (L.read_faults link.new) (L.write_faults link.new) (K.faults out.new) (K.wants out.new)) }
{
    let count = run_client(rt, alloc, end, feed, link, src, out)?;
    Ok(client_ending(end.is_over(), count))
}

fn client_ending(over: bool, count: u64) -> Ending
    ensures { result ≡ ending_of over count }
{
    if over {
        Ending::NoAnswer(count)
    } else {
        Ending::Answered(count)
    }
}

fn serve_all<R: Wait, L: Link, K: Sink>(
    rt: &R,
    alloc: Global,
    serving: Serving,
    link: &mut L,
    out: &mut K,
) -> Result<Ending, Stop>
    requires { 1 ≤ serving.tries }
    ensures over { IfOk result (λ ending. (from : Option (List ℕ)) (reads : ℕ) → CameTo (tasks.Worker serving) (scene from (places (L.told link.old) (K.written out.old)) (places (L.told link.new) (K.written out.new)) (counts (L.read_faults link.old) (L.write_faults link.old) (K.faults out.old) (K.wants out.old)) (counts (L.read_faults link.new) (L.write_faults link.new) (K.faults out.new) (K.wants out.new)) reads reads) ending) }
    ensures halted { IfErr result (λ stop. (from : Option (List ℕ)) (reads : ℕ) → IsHalted stop (tasks.Worker serving) (scene from (places (L.told link.old) (K.written out.old)) (places (L.told link.new) (K.written out.new)) (counts (L.read_faults link.old) (L.write_faults link.old) (K.faults out.old) (K.wants out.old)) (counts (L.read_faults link.new) (L.write_faults link.new) (K.faults out.new) (K.wants out.new)) reads reads)) }
    ensures later { AreLater (counts (L.read_faults link.old) (L.write_faults link.old) (K.faults out.old) (K.wants out.old)) (counts (L.read_faults link.new) (L.write_faults link.new) (K.faults out.new) (K.wants out.new)) }
{
    let mut end = WorkerEnd::new(
        alloc,
        serving.version,
        serving.service,
        serving.tries,
        serving.parts,
        serving.count,
    )?;
    serve_each(rt, alloc, &mut end, link, out)
}

/// The run of a new worker. It reads no input.
fn serve_each<R: Wait, L: Link, K: Sink>(
    rt: &R,
    alloc: Global,
    end: &mut WorkerEnd,
    link: &mut L,
    out: &mut K,
) -> Result<Ending, Stop>
    requires { end.old.spent ≡ false }
    ensures over { IfOk result (λ ending. (v : AServing) (from : Option (List ℕ)) (reads : ℕ) → Stands end.old.post (worker_of v) → CameTo (tasks.Worker v) (scene from (places (L.told link.old) (K.written out.old)) (places (L.told link.new) (K.written out.new)) (counts (L.read_faults link.old) (L.write_faults link.old) (K.faults out.old) (K.wants out.old)) (counts (L.read_faults link.new) (L.write_faults link.new) (K.faults out.new) (K.wants out.new)) reads reads) ending) }
    ensures halted { IfErr result (λ stop. (v : AServing) (from : Option (List ℕ)) (reads : ℕ) → Stands end.old.post (worker_of v) → IsHalted stop (tasks.Worker v) (scene from (places (L.told link.old) (K.written out.old)) (places (L.told link.new) (K.written out.new)) (counts (L.read_faults link.old) (L.write_faults link.old) (K.faults out.old) (K.wants out.old)) (counts (L.read_faults link.new) (L.write_faults link.new) (K.faults out.new) (K.wants out.new)) reads reads)) }
    ensures later { AreLater (counts (L.read_faults link.old) (L.write_faults link.old) (K.faults out.old) (K.wants out.old)) (counts (L.read_faults link.new) (L.write_faults link.new) (K.faults out.new) (K.wants out.new)) }
{
    let leaving = run_worker(rt, alloc, end, link, out)?;
    Ok(worker_ending(leaving, end.served()))
}

fn worker_ending(leaving: Leaving, served: u64) -> Ending
    ensures { result ≡ ending_by leaving served }
{
    match leaving {
        Leaving::Finished => Ending::Served(served),
        Leaving::NoAnswer => Ending::NoAnswer(served),
    }
}
