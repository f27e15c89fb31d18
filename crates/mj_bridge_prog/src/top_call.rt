ghost use Rattle.std.specs.Prelude.{◌≡◌, ◌↔◌, [], false, None, IfSome, IfOk, IfErr, map, string_bytes};
ghost use Rattle.mj_bridge.specs.BridgeRules.{Bridge as ABridge};
ghost use Rattle.mj_bridge.specs.BridgeStands.{Stands};
ghost use Rattle.mj_bridge_prog.specs.BridgeTable.{CameTo, IsFinished, IsGivenUp, IsHalted, IsRow, IsStarved, IsStatus, IsUnread, IsUnwritten, bridge_of, scene};
ghost use Rattle.mj_bridge_prog.specs.BridgeWords.{IsLawful, bridging_in};
ghost use Rattle.mj_bridge_prog.specs.Sides.{counts, sides};
ghost use Rattle.mj_bridge_prog.specs.declared.status.Status;
ghost use Rattle.mj_words.specs.Lines.{AppendsLine, fault_words};
ghost use Rattle.mj_words.specs.SinkCounts.{counted};

use super::ending::{Ending, ending_by};
use super::finish::finish;
use super::run::run_bridge;
use super::status::{Status, code};
use super::words::{Bridging, read_bridging};
use mj_base::{Link, Sink};
use mj_bridge::Bridge;
use mj_peering::Stop;
use mj_words::complain;
use std::alloc::Global;
use std::sync::Wait;

/// Does what the words say, which are those behind the program's name: ADDRESS `bridge` NAME ADDRESS2 NAME2 with its options,
/// over a link that goes to the first address and one that goes to the second. The answer is the status that the program
/// exits with.
pub fn bridge<R: Wait, N: Link, F: Link, K: Sink>(
    rt: &R,
    alloc: Global,
    words: &[String],
    near: &mut N,
    far: &mut F,
    out: &mut K,
) -> u8
    ensures statuses { IsStatus result }
    ensures words { (result ≡ 1) ↔ (bridging_in (map string_bytes words.now) ≡ None) }
    ensures refused_words { result ≡ 1 → (near.new ≡ near.old) × (far.new ≡ far.old) × AppendsLine (K.written out.old) (K.written out.new) (counted (K.faults out.old) (K.wants out.old)) (counted (K.faults out.new) (K.wants out.new)) [] fault_words }
    ensures done { result ≡ 0 → IfSome (bridging_in (map string_bytes words.now)) (λ bridging. IsFinished (bridge_of bridging) (scene (sides (N.told near.old) (F.told far.old)) (sides (N.told near.new) (F.told far.new)) (counts (N.read_faults near.old) (N.write_faults near.old) (F.read_faults far.old) (F.write_faults far.old)) (counts (N.read_faults near.new) (N.write_faults near.new) (F.read_faults far.new) (F.write_faults far.new)) (K.written out.old) (K.written out.new) (counted (K.faults out.old) (K.wants out.old)) (counted (K.faults out.new) (K.wants out.new)))) }
    ensures memory { result ≡ 4 → IfSome (bridging_in (map string_bytes words.now)) (λ bridging. IsStarved (bridge_of bridging) (scene (sides (N.told near.old) (F.told far.old)) (sides (N.told near.new) (F.told far.new)) (counts (N.read_faults near.old) (N.write_faults near.old) (F.read_faults far.old) (F.write_faults far.old)) (counts (N.read_faults near.new) (N.write_faults near.new) (F.read_faults far.new) (F.write_faults far.new)) (K.written out.old) (K.written out.new) (counted (K.faults out.old) (K.wants out.old)) (counted (K.faults out.new) (K.wants out.new)))) }
    ensures read { result ≡ 6 → IfSome (bridging_in (map string_bytes words.now)) (λ bridging. IsUnread (bridge_of bridging) (scene (sides (N.told near.old) (F.told far.old)) (sides (N.told near.new) (F.told far.new)) (counts (N.read_faults near.old) (N.write_faults near.old) (F.read_faults far.old) (F.write_faults far.old)) (counts (N.read_faults near.new) (N.write_faults near.new) (F.read_faults far.new) (F.write_faults far.new)) (K.written out.old) (K.written out.new) (counted (K.faults out.old) (K.wants out.old)) (counted (K.faults out.new) (K.wants out.new)))) }
    ensures write { result ≡ 7 → IfSome (bridging_in (map string_bytes words.now)) (λ bridging. IsUnwritten (bridge_of bridging) (scene (sides (N.told near.old) (F.told far.old)) (sides (N.told near.new) (F.told far.new)) (counts (N.read_faults near.old) (N.write_faults near.old) (F.read_faults far.old) (F.write_faults far.old)) (counts (N.read_faults near.new) (N.write_faults near.new) (F.read_faults far.new) (F.write_faults far.new)) (K.written out.old) (K.written out.new) (counted (K.faults out.old) (K.wants out.old)) (counted (K.faults out.new) (K.wants out.new)))) }
    ensures no_answer { result ≡ 8 → IfSome (bridging_in (map string_bytes words.now)) (λ bridging. IsGivenUp (bridge_of bridging) (scene (sides (N.told near.old) (F.told far.old)) (sides (N.told near.new) (F.told far.new)) (counts (N.read_faults near.old) (N.write_faults near.old) (F.read_faults far.old) (F.write_faults far.old)) (counts (N.read_faults near.new) (N.write_faults near.new) (F.read_faults far.new) (F.write_faults far.new)) (K.written out.old) (K.written out.new) (counted (K.faults out.old) (K.wants out.old)) (counted (K.faults out.new) (K.wants out.new)))) }
{
    code(run_words(rt, alloc, words, near, far, out))
}

fn run_words<R: Wait, N: Link, F: Link, K: Sink>(
    rt: &R,
    alloc: Global,
    words: &[String],
    near: &mut N,
    far: &mut F,
    out: &mut K,
) -> Status
    ensures words { (result ≡ Status.Words) ↔ (bridging_in (map string_bytes words.now) ≡ None) }
    ensures refused_words { result ≡ Status.Words → (near.new ≡ near.old) × (far.new ≡ far.old) × AppendsLine (K.written out.old) (K.written out.new) (counted (K.faults out.old) (K.wants out.old)) (counted (K.faults out.new) (K.wants out.new)) [] fault_words }
    ensures rows { IfSome (bridging_in (map string_bytes words.now)) (λ bridging. IsRow result (bridge_of bridging) (scene (sides (N.told near.old) (F.told far.old)) (sides (N.told near.new) (F.told far.new)) (counts (N.read_faults near.old) (N.write_faults near.old) (F.read_faults far.old) (F.write_faults far.old)) (counts (N.read_faults near.new) (N.write_faults near.new) (F.read_faults far.new) (F.write_faults far.new)) (K.written out.old) (K.written out.new) (counted (K.faults out.old) (K.wants out.old)) (counted (K.faults out.new) (K.wants out.new)))) }
{
    match read_bridging(words) {
        Some(bridging) => do_bridging(rt, alloc, bridging, near, far, out),
        None => {
            complain(b"fault words\n", out);
            Status::Words
        }
    }
}

fn do_bridging<R: Wait, N: Link, F: Link, K: Sink>(
    rt: &R,
    alloc: Global,
    bridging: Bridging,
    near: &mut N,
    far: &mut F,
    out: &mut K,
) -> Status
    requires { IsLawful bridging }
    ensures { IsRow result (bridge_of bridging) (scene (sides (N.told near.old) (F.told far.old)) (sides (N.told near.new) (F.told far.new)) (counts (N.read_faults near.old) (N.write_faults near.old) (F.read_faults far.old) (F.write_faults far.old)) (counts (N.read_faults near.new) (N.write_faults near.new) (F.read_faults far.new) (F.write_faults far.new)) (K.written out.old) (K.written out.new) (counted (K.faults out.old) (K.wants out.old)) (counted (K.faults out.new) (K.wants out.new))) }
{
    let run = run_new(rt, alloc, bridging, near, far);
    finish(alloc, run, out)
}

/// The run of a new bridge.
fn run_new<R: Wait, N: Link, F: Link>(
    rt: &R,
    alloc: Global,
    bridging: Bridging,
    near: &mut N,
    far: &mut F,
) -> Result<Ending, Stop>
    requires { IsLawful bridging }
    ensures over { IfOk result (CameTo (bridge_of bridging) (sides (N.told near.old) (F.told far.old)) (sides (N.told near.new) (F.told far.new))) }
    ensures halted { IfErr result (IsHalted (bridge_of bridging) (sides (N.told near.old) (F.told far.old)) (sides (N.told near.new) (F.told far.new)) (counts (N.read_faults near.old) (N.write_faults near.old) (F.read_faults far.old) (F.write_faults far.old)) (counts (N.read_faults near.new) (N.write_faults near.new) (F.read_faults far.new) (F.write_faults far.new))) }
{
    let mut bridge = Bridge::new(
        alloc,
        bridging.service,
        bridging.remote,
        bridging.tries,
        bridging.wait,
        bridging.count,
    )?;
    run_begun(rt, alloc, &mut bridge, near, far)
}

fn run_begun<R: Wait, N: Link, F: Link>(
    rt: &R,
    alloc: Global,
    bridge: &mut Bridge,
    near: &mut N,
    far: &mut F,
) -> Result<Ending, Stop>
    requires { bridge.old.spent ≡ false }
    ensures over { IfOk result (λ ending. (first : ABridge) → Stands bridge.old.deck first → CameTo first (sides (N.told near.old) (F.told far.old)) (sides (N.told near.new) (F.told far.new)) ending) }
    ensures halted { IfErr result (λ stop. (first : ABridge) → Stands bridge.old.deck first → IsHalted first (sides (N.told near.old) (F.told far.old)) (sides (N.told near.new) (F.told far.new)) (counts (N.read_faults near.old) (N.write_faults near.old) (F.read_faults far.old) (F.write_faults far.old)) (counts (N.read_faults near.new) (N.write_faults near.new) (F.read_faults far.new) (F.write_faults far.new)) stop) }
{
    let leaving = run_bridge(rt, alloc, bridge, near, far)?;
    Ok(ending_by(leaving, bridge.served()))
}
