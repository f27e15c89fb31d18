//! The run of a bridge over its two links.
ghost use Rattle.std.specs.Prelude.{◌≡◌, false, true, OnOk, OnErr, IfOk, IfErr};
ghost use Rattle.mj_base.specs.declared.link.LinkEvent.{LinkEvent as AnEvent};
ghost use Rattle.mj_bridge.specs.BridgeRules.{Bridge as ABridge, FarGave, NearGave};
ghost use Rattle.mj_bridge.specs.BridgeStands.{Stands};
ghost use Rattle.mj_bridge_prog.specs.BridgeRun.{BrokeOff, Halted, Left, Turned, Worked, leaving_in};
ghost use Rattle.mj_bridge_prog.specs.Sides.{AreLater, Breaks, Cause, PerformCause, Performs, counts, sides};

use super::leaving::leaving_among;
use super::performing::perform_all;
use mj_base::Link;
use mj_bridge::{Bridge, BridgeActs};
use mj_peering::{Leaving, Stop, read_event};
use std::alloc::Global;
use std::sync::Wait;

/// Starts the bridge and takes what the near and the far link give, in turn, until it leaves; answers how it left.
pub(crate) fn run_bridge<R: Wait, N: Link, F: Link>(
    rt: &R,
    alloc: Global,
    bridge: &mut Bridge,
    near: &mut N,
    far: &mut F,
) -> Result<Leaving, Stop>
    requires { bridge.old.spent ≡ false }
    ensures ran { IfOk result (λ leaving. (first : ABridge) → Stands bridge.old.deck first → Left leaving first (sides (N.told near.old) (F.told far.old)) (sides (N.told near.new) (F.told far.new)) bridge.new.deck) }
    ensures halted { IfErr result (λ stop. (first : ABridge) → Stands bridge.old.deck first → Halted stop first (sides (N.told near.old) (F.told far.old)) (sides (N.told near.new) (F.told far.new))) }
    ensures cause { IfErr result (λ stop. Cause stop (counts (N.read_faults near.old) (N.write_faults near.old) (F.read_faults far.old) (F.write_faults far.old)) (counts (N.read_faults near.new) (N.write_faults near.new) (F.read_faults far.new) (F.write_faults far.new))) }
    ensures later { AreLater (counts (N.read_faults near.old) (N.write_faults near.old) (F.read_faults far.old) (F.write_faults far.old)) (counts (N.read_faults near.new) (N.write_faults near.new) (F.read_faults far.new) (F.write_faults far.new)) }
{
    start(alloc, bridge, near, far)?;
    for _ in rt.forever() {
        match take_near(alloc, bridge, near, far)? {
            Some(leaving) => return Ok(leaving),
            None => {}
        }
        match take_far(alloc, bridge, near, far)? {
            Some(leaving) => return Ok(leaving),
            None => {}
        }
    }
    unreachable!()
}

/// The bridge's first call.
fn start<N: Link, F: Link>(
    alloc: Global,
    bridge: &mut Bridge,
    near: &mut N,
    far: &mut F,
) -> Result<(), Stop>
    requires { bridge.old.spent ≡ false }
    ensures worked { OnOk result ((first : ABridge) → Stands bridge.old.deck first → Worked first (sides (N.told near.old) (F.told far.old)) (sides (N.told near.new) (F.told far.new)) bridge.new.deck true) }
    ensures halted { IfErr result (λ stop. (first : ABridge) → Stands bridge.old.deck first → Halted stop first (sides (N.told near.old) (F.told far.old)) (sides (N.told near.new) (F.told far.new))) }
    ensures cause { IfErr result (λ stop. Cause stop (counts (N.read_faults near.old) (N.write_faults near.old) (F.read_faults far.old) (F.write_faults far.old)) (counts (N.read_faults near.new) (N.write_faults near.new) (F.read_faults far.new) (F.write_faults far.new))) }
    ensures later { AreLater (counts (N.read_faults near.old) (N.write_faults near.old) (F.read_faults far.old) (F.write_faults far.old)) (counts (N.read_faults near.new) (N.write_faults near.new) (F.read_faults far.new) (F.write_faults far.new)) }
    ensures ready { OnOk result (bridge.new.spent ≡ false) }
{
    let acts = bridge.start(alloc)?;
    perform_all(&acts, near, far)
}

/// Takes what the near link gives next; answers how the bridge left by it, if it did.
fn take_near<N: Link, F: Link>(
    alloc: Global,
    bridge: &mut Bridge,
    near: &mut N,
    far: &mut F,
) -> Result<Option<Leaving>, Stop>
    requires { bridge.old.spent ≡ false }
    ensures done { IfOk result (λ leaving. (event : AnEvent) × Turned leaving bridge.old.deck bridge.new.deck (sides (N.told near.old) (F.told far.old)) (sides (N.told near.new) (F.told far.new)) (NearGave event)) }
    ensures broken { IfErr result (λ stop. BrokeOff stop NearGave bridge.old.deck (sides (N.told near.old) (F.told far.old)) (sides (N.told near.new) (F.told far.new))) }
    ensures cause { IfErr result (λ stop. Cause stop (counts (N.read_faults near.old) (N.write_faults near.old) (F.read_faults far.old) (F.write_faults far.old)) (counts (N.read_faults near.new) (N.write_faults near.new) (F.read_faults far.new) (F.write_faults far.new))) }
    ensures later { AreLater (counts (N.read_faults near.old) (N.write_faults near.old) (F.read_faults far.old) (F.write_faults far.old)) (counts (N.read_faults near.new) (N.write_faults near.new) (F.read_faults far.new) (F.write_faults far.new)) }
    ensures ready { OnOk result (bridge.new.spent ≡ false) }
{
    let event = read_event(alloc, near)?;
    let acts = bridge.near(alloc, event)?;
    do_acts(&acts, near, far)
}

/// Takes what the far link gives next; answers how the bridge left by it, if it did.
fn take_far<N: Link, F: Link>(
    alloc: Global,
    bridge: &mut Bridge,
    near: &mut N,
    far: &mut F,
) -> Result<Option<Leaving>, Stop>
    requires { bridge.old.spent ≡ false }
    ensures done { IfOk result (λ leaving. (event : AnEvent) × Turned leaving bridge.old.deck bridge.new.deck (sides (N.told near.old) (F.told far.old)) (sides (N.told near.new) (F.told far.new)) (FarGave event)) }
    ensures broken { IfErr result (λ stop. BrokeOff stop FarGave bridge.old.deck (sides (N.told near.old) (F.told far.old)) (sides (N.told near.new) (F.told far.new))) }
    ensures cause { IfErr result (λ stop. Cause stop (counts (N.read_faults near.old) (N.write_faults near.old) (F.read_faults far.old) (F.write_faults far.old)) (counts (N.read_faults near.new) (N.write_faults near.new) (F.read_faults far.new) (F.write_faults far.new))) }
    ensures later { AreLater (counts (N.read_faults near.old) (N.write_faults near.old) (F.read_faults far.old) (F.write_faults far.old)) (counts (N.read_faults near.new) (N.write_faults near.new) (F.read_faults far.new) (F.write_faults far.new)) }
    ensures ready { OnOk result (bridge.new.spent ≡ false) }
{
    let event = read_event(alloc, far)?;
    let acts = bridge.far(alloc, event)?;
    do_acts(&acts, near, far)
}

/// Does these acts; answers how the bridge leaves by them, if it does.
fn do_acts<N: Link, F: Link>(
    acts: &BridgeActs,
    near: &mut N,
    far: &mut F,
) -> Result<Option<Leaving>, Stop>
    ensures done { IfOk result (λ leaving. Performs (sides (N.told near.old) (F.told far.old)) (sides (N.told near.new) (F.told far.new)) acts.now × (leaving ≡ leaving_in acts.now)) }
    ensures broken { OnErr result (Breaks (sides (N.told near.old) (F.told far.old)) (sides (N.told near.new) (F.told far.new)) acts.now) }
    ensures cause { IfErr result (λ stop. PerformCause stop (counts (N.read_faults near.old) (N.write_faults near.old) (F.read_faults far.old) (F.write_faults far.old)) (counts (N.read_faults near.new) (N.write_faults near.new) (F.read_faults far.new) (F.write_faults far.new))) }
    ensures later { AreLater (counts (N.read_faults near.old) (N.write_faults near.old) (F.read_faults far.old) (F.write_faults far.old)) (counts (N.read_faults near.new) (N.write_faults near.new) (F.read_faults far.new) (F.write_faults far.new)) }
{
    perform_all(acts, near, far)?;
    Ok(leaving_among(acts.as_slice()))
}
