ghost use Rattle.std.specs.Prelude.{◌≡◌, ◌↔◌, [], None, IfSome, map, string_bytes};
ghost use Rattle.mj_peering.specs.Performing.{counts, places};
ghost use Rattle.mj_words.specs.Lines.{AppendsLine, fault_words};
ghost use Rattle.mj_words.specs.SinkCounts.{counted};
ghost use Rattle.mj_peer_prog.specs.PeerTable.{IsFinished, IsGivenUp, IsStarved, IsUnread, IsUnwritten, scene};
ghost use Rattle.mj_peer_prog.specs.PeerWords.{IsLawful, task_in};
ghost use Rattle.mj_peer_prog.specs.StatusRows.{IsRow};
ghost use Rattle.mj_peer_prog.specs.Statuses.{IsStatus};
ghost use Rattle.mj_peer_prog.specs.declared.status.Status;

use super::finish::finish;
use super::run::run_task;
use super::status::{Status, code};
use super::task::Task;
use super::words::read_task;
use mj_base::{Link, Sink, Source};
use mj_words::complain;
use std::alloc::Global;
use std::sync::Wait;

/// Does what the words say, which are those behind the program's name: ADDRESS `client` and ADDRESS `worker`, with version,
/// service and options, over a link that goes to the address. The answer is the status that the program exits with.
pub fn peer<R: Wait, L: Link, S: Source, K: Sink>(
    rt: &R,
    alloc: Global,
    words: &[String],
    link: &mut L,
    src: &mut S,
    out: &mut K,
) -> u8
    ensures statuses { IsStatus result }
    ensures words { (result ≡ 1) ↔ (task_in (map string_bytes words.now) ≡ None) }
    ensures refused_words { result ≡ 1 → (link.new ≡ link.old) × (src.new ≡ src.old) × AppendsLine (K.written out.old) (K.written out.new) (counted (K.faults out.old) (K.wants out.old)) (counted (K.faults out.new) (K.wants out.new)) [] fault_words }
    ensures done { result ≡ 0 → IfSome (task_in (map string_bytes words.now)) (λ task. IsFinished task (scene (S.left src.old) (places (L.told link.old) (K.written out.old)) (places (L.told link.new) (K.written out.new)) (counts (L.read_faults link.old) (L.write_faults link.old) (K.faults out.old) (K.wants out.old)) (counts (L.read_faults link.new) (L.write_faults link.new) (K.faults out.new) (K.wants out.new)) (S.faults src.old) (S.faults src.new))) }
    ensures memory { result ≡ 4 → IfSome (task_in (map string_bytes words.now)) (λ task. IsStarved task (scene (S.left src.old) (places (L.told link.old) (K.written out.old)) (places (L.told link.new) (K.written out.new)) (counts (L.read_faults link.old) (L.write_faults link.old) (K.faults out.old) (K.wants out.old)) (counts (L.read_faults link.new) (L.write_faults link.new) (K.faults out.new) (K.wants out.new)) (S.faults src.old) (S.faults src.new))) }
    ensures read { result ≡ 6 → IfSome (task_in (map string_bytes words.now)) (λ task. IsUnread task (scene (S.left src.old) (places (L.told link.old) (K.written out.old)) (places (L.told link.new) (K.written out.new)) (counts (L.read_faults link.old) (L.write_faults link.old) (K.faults out.old) (K.wants out.old)) (counts (L.read_faults link.new) (L.write_faults link.new) (K.faults out.new) (K.wants out.new)) (S.faults src.old) (S.faults src.new))) }
    ensures write { result ≡ 7 → IfSome (task_in (map string_bytes words.now)) (λ task. IsUnwritten task (scene (S.left src.old) (places (L.told link.old) (K.written out.old)) (places (L.told link.new) (K.written out.new)) (counts (L.read_faults link.old) (L.write_faults link.old) (K.faults out.old) (K.wants out.old)) (counts (L.read_faults link.new) (L.write_faults link.new) (K.faults out.new) (K.wants out.new)) (S.faults src.old) (S.faults src.new))) }
    ensures no_answer { result ≡ 8 → IfSome (task_in (map string_bytes words.now)) (λ task. IsGivenUp task (scene (S.left src.old) (places (L.told link.old) (K.written out.old)) (places (L.told link.new) (K.written out.new)) (counts (L.read_faults link.old) (L.write_faults link.old) (K.faults out.old) (K.wants out.old)) (counts (L.read_faults link.new) (L.write_faults link.new) (K.faults out.new) (K.wants out.new)) (S.faults src.old) (S.faults src.new))) }
{
    code(run_peer(rt, alloc, words, link, src, out))
}

fn run_peer<R: Wait, L: Link, S: Source, K: Sink>(
    rt: &R,
    alloc: Global,
    words: &[String],
    link: &mut L,
    src: &mut S,
    out: &mut K,
) -> Status
    ensures words { (result ≡ Status.Words) ↔ (task_in (map string_bytes words.now) ≡ None) }
    ensures refused_words { result ≡ Status.Words → (link.new ≡ link.old) × (src.new ≡ src.old) × AppendsLine (K.written out.old) (K.written out.new) (counted (K.faults out.old) (K.wants out.old)) (counted (K.faults out.new) (K.wants out.new)) [] fault_words }
    ensures rows { IfSome (task_in (map string_bytes words.now)) (λ task. IsRow result task (scene (S.left src.old) (places (L.told link.old) (K.written out.old)) (places (L.told link.new) (K.written out.new)) (counts (L.read_faults link.old) (L.write_faults link.old) (K.faults out.old) (K.wants out.old)) (counts (L.read_faults link.new) (L.write_faults link.new) (K.faults out.new) (K.wants out.new)) (S.faults src.old) (S.faults src.new))) }
{
    match read_task(words) {
        Some(task) => do_task(rt, alloc, task, link, src, out),
        None => {
            complain(b"fault words\n", out);
            Status::Words
        }
    }
}

fn do_task<R: Wait, L: Link, S: Source, K: Sink>(
    rt: &R,
    alloc: Global,
    task: Task,
    link: &mut L,
    src: &mut S,
    out: &mut K,
) -> Status
    requires { IsLawful task }
    ensures { IsRow result task (scene (S.left src.old) (places (L.told link.old) (K.written out.old)) (places (L.told link.new) (K.written out.new)) (counts (L.read_faults link.old) (L.write_faults link.old) (K.faults out.old) (K.wants out.old)) (counts (L.read_faults link.new) (L.write_faults link.new) (K.faults out.new) (K.wants out.new)) (S.faults src.old) (S.faults src.new)) }
{
    let run = run_task(rt, alloc, task, link, src, out);
    finish(alloc, run, out)
}
