//! The run of ship over a link.
ghost use Rattle.std.specs.Prelude.{◌≡◌, ◌≢◌, ◌≤◌, ◌<◌, ◌∷◌, [], ℕ, List, false, length, OnOk, OnErr, IfOk, IfErr};
ghost use Rattle.std.specs.List.{AllByRecursion};
ghost use Rattle.mj_base.specs.Rising.{Rose};
ghost use Rattle.mj_base.specs.Linking.{Tells};
ghost use Rattle.mj_base.specs.declared.link.LinkEvent.{LinkEvent as AnEvent};
ghost use Rattle.mj_copy.specs.ShipRules.{Shipping, new_ship, ship_steps};
ghost use Rattle.mj_copy.specs.ShipStands.{shipping_of};
ghost use Rattle.mj_copy.specs.declared.phase.Phase.TheVariants.{Going};
ghost use Rattle.mj_copy_file.specs.Logs.{IsHeld};
ghost use Rattle.mj_copying.specs.Held.{StandsAt};
ghost use Rattle.mj_copying.specs.Passing.{AreLater, Cause, counts};
ghost use Rattle.mj_copying.specs.ShipRun.{Breaks, BrokeOff, IsInside, Met, Performs, PartMet, Ran, entries_of, sent};
ghost use Rattle.mj_copying.specs.ShipEndings.{Ended, Ships};

use super::reading::read_event;
use super::stop::Stop;
use super::writing::write;
use mj_base::Link;
use mj_copy::{Phase, Ship, ShipAct, send_octets};
use mj_copy_file::{Log, LogFault};
use mj_disk::Disk;
use std::alloc::Global;
use std::sync::Wait;

/// What a run of ship came to.
#[derive(Clone, Copy, Debug, PartialEq, Eq)]
pub enum ShipEnding {
    /// The other end has all commands, so many.
    Done(u64),
    /// The tries are used. The other end said last that it has so many.
    NoAnswer(u64),
}

/// Gives the commands of an open file to whoever follows, until that one has all, or the tries are used.
pub fn run_ship<R: Wait, L: Link, D: Disk>(
    rt: &R,
    alloc: Global,
    tries: u32,
    log: &Log,
    link: &mut L,
    disk: &mut D,
) -> Result<ShipEnding, Stop>
    requires held { IsHeld D.Disk log.now disk.old }
    ensures shipped { IfOk result (λ ending. (payloads : List (List ℕ)) → StandsAt payloads log.now (D.told disk.old) → Ships tries log.now.base payloads (L.told link.old) (L.told link.new) ending) }
    ensures broken { OnErr result ((payloads : List (List ℕ)) → StandsAt payloads log.now (D.told disk.old) → BrokeOff payloads (new_ship log.now.base (length payloads) tries) (L.told link.old) (L.told link.new)) }
    ensures cause { IfErr result (λ stop. Cause stop (counts (L.read_faults link.old) (L.write_faults link.old) (D.faults disk.old)) (counts (L.read_faults link.new) (L.write_faults link.new) (D.faults disk.new))) }
    ensures later { AreLater (counts (L.read_faults link.old) (L.write_faults link.old) (D.faults disk.old)) (counts (L.read_faults link.new) (L.write_faults link.new) (D.faults disk.new)) }
    ensures same { D.told disk.new ≡ D.told disk.old }
    ensures time { D.time disk.old ≤ D.time disk.new }
{
    let mut end = Ship::new(alloc, log.base(), log.count(), tries)?;
    meet_all(rt, alloc, &mut end, log, link, disk)?;
    Ok(ending_of(&end, log.count()))
}

/// How an end that is over ended.
fn ending_of(end: &Ship, total: u64) -> ShipEnding
    requires { (shipping_of end.now).phase ≢ Going }
    ensures { Ended result total (shipping_of end.now) }
{
    if end.phase() == Phase::Finished {
        ShipEnding::Done(total)
    } else {
        ShipEnding::NoAnswer(end.have())
    }
}

/// Meets what the link gives, until the end is over.
fn meet_all<R: Wait, L: Link, D: Disk>(
    rt: &R,
    alloc: Global,
    end: &mut Ship,
    log: &Log,
    link: &mut L,
    disk: &mut D,
) -> Result<(), Stop>
    requires ready { end.old.spent ≡ false }
    requires held { IsHeld D.Disk log.now disk.old }
    requires total { (shipping_of end.old).total ≡ length log.now.spots.items }
    ensures ran { OnOk result ((payloads : List (List ℕ)) → StandsAt payloads log.now (D.told disk.old) → Ran payloads (shipping_of end.old) (L.told link.old) (L.told link.new) (shipping_of end.new)) }
    ensures over { OnOk result ((shipping_of end.new).phase ≢ Going) }
    ensures broken { OnErr result ((payloads : List (List ℕ)) → StandsAt payloads log.now (D.told disk.old) → BrokeOff payloads (shipping_of end.old) (L.told link.old) (L.told link.new)) }
    ensures cause { IfErr result (λ stop. Cause stop (counts (L.read_faults link.old) (L.write_faults link.old) (D.faults disk.old)) (counts (L.read_faults link.new) (L.write_faults link.new) (D.faults disk.new))) }
    ensures later { AreLater (counts (L.read_faults link.old) (L.write_faults link.old) (D.faults disk.old)) (counts (L.read_faults link.new) (L.write_faults link.new) (D.faults disk.new)) }
    ensures same { D.told disk.new ≡ D.told disk.old }
    ensures time { D.time disk.old ≤ D.time disk.new }
{
    for _ in rt.forever() {
        if end.phase() != Phase::Going {
            return Ok(());
        }
        meet(alloc, end, log, link, disk)?;
    }
    unreachable!()
}

/// Meets what the link gives next.
fn meet<L: Link, D: Disk>(
    alloc: Global,
    end: &mut Ship,
    log: &Log,
    link: &mut L,
    disk: &mut D,
) -> Result<(), Stop>
    requires ready { end.old.spent ≡ false }
    requires held { IsHeld D.Disk log.now disk.old }
    requires total { (shipping_of end.old).total ≡ length log.now.spots.items }
    ensures done { OnOk result ((payloads : List (List ℕ)) → StandsAt payloads log.now (D.told disk.old) → Met payloads (shipping_of end.old) (L.told link.old) (L.told link.new) (shipping_of end.new)) }
    ensures broken { OnErr result ((payloads : List (List ℕ)) → StandsAt payloads log.now (D.told disk.old) → PartMet payloads (shipping_of end.old) (L.told link.old) (L.told link.new)) }
    ensures ready { OnOk result (end.new.spent ≡ false) }
    ensures held { OnOk result (IsHeld D.Disk log.now disk.new) }
    ensures total { OnOk result ((shipping_of end.new).total ≡ (shipping_of end.old).total) }
    ensures cause { IfErr result (λ stop. Cause stop (counts (L.read_faults link.old) (L.write_faults link.old) (D.faults disk.old)) (counts (L.read_faults link.new) (L.write_faults link.new) (D.faults disk.new))) }
    ensures later { AreLater (counts (L.read_faults link.old) (L.write_faults link.old) (D.faults disk.old)) (counts (L.read_faults link.new) (L.write_faults link.new) (D.faults disk.new)) }
    ensures same { D.told disk.new ≡ D.told disk.old }
    ensures time { D.time disk.old ≤ D.time disk.new }
{
    let event = read_event(alloc, link)?;
    let acts = end.step(alloc, event)?;
    perform_all(alloc, acts.as_slice(), log, link, disk)
}

/// Does these acts, up to one that fails.
fn perform_all<L: Link, D: Disk>(
    alloc: Global,
    acts: &[ShipAct],
    log: &Log,
    link: &mut L,
    disk: &mut D,
) -> Result<(), Stop>
    requires held { IsHeld D.Disk log.now disk.old }
    requires inside { AllByRecursion (IsInside (length log.now.spots.items)) acts.now }
    ensures done { OnOk result ((payloads : List (List ℕ)) → StandsAt payloads log.now (D.told disk.old) → Performs payloads (L.told link.old) (L.told link.new) acts.now) }
    ensures broken { OnErr result ((payloads : List (List ℕ)) → StandsAt payloads log.now (D.told disk.old) → Breaks payloads (L.told link.old) (L.told link.new) acts.now) }
    ensures held { OnOk result (IsHeld D.Disk log.now disk.new) }
    ensures cause { IfErr result (λ stop. Cause stop (counts (L.read_faults link.old) (L.write_faults link.old) (D.faults disk.old)) (counts (L.read_faults link.new) (L.write_faults link.new) (D.faults disk.new))) }
    ensures later { AreLater (counts (L.read_faults link.old) (L.write_faults link.old) (D.faults disk.old)) (counts (L.read_faults link.new) (L.write_faults link.new) (D.faults disk.new)) }
    ensures same { D.told disk.new ≡ D.told disk.old }
    ensures time { D.time disk.old ≤ D.time disk.new }
{
    for act in acts {
        perform(alloc, act, log, link, disk)?;
    }
    Ok(())
}

fn perform<L: Link, D: Disk>(
    alloc: Global,
    act: &ShipAct,
    log: &Log,
    link: &mut L,
    disk: &mut D,
) -> Result<(), Stop>
    requires held { IsHeld D.Disk log.now disk.old }
    requires inside { IsInside (length log.now.spots.items) act.now }
    ensures done { OnOk result ((payloads : List (List ℕ)) → StandsAt payloads log.now (D.told disk.old) → Tells (L.told link.old) (L.told link.new) (entries_of payloads act.now)) }
    ensures broken { OnErr result (L.told link.new ≡ L.told link.old) }
    ensures held { OnOk result (IsHeld D.Disk log.now disk.new) }
    ensures cause { IfErr result (λ stop. Cause stop (counts (L.read_faults link.old) (L.write_faults link.old) (D.faults disk.old)) (counts (L.read_faults link.new) (L.write_faults link.new) (D.faults disk.new))) }
    ensures later { AreLater (counts (L.read_faults link.old) (L.write_faults link.old) (D.faults disk.old)) (counts (L.read_faults link.new) (L.write_faults link.new) (D.faults disk.new)) }
    ensures same { D.told disk.new ≡ D.told disk.old }
    ensures time { D.time disk.old ≤ D.time disk.new }
{
    match act {
        ShipAct::Write(octets) => write(octets.as_slice(), link),
        ShipAct::SendAt(n) => send(alloc, *n, log, link, disk),
        ShipAct::Reopen => Ok(link.reopen()?),
        ShipAct::Done | ShipAct::NoAnswer => Ok(()),
    }
}

/// Writes the message of a command that is there.
fn send<L: Link, D: Disk>(
    alloc: Global,
    n: u64,
    log: &Log,
    link: &mut L,
    disk: &mut D,
) -> Result<(), Stop>
    requires held { IsHeld D.Disk log.now disk.old }
    requires inside { n < length log.now.spots.items }
    ensures done { OnOk result ((payloads : List (List ℕ)) → StandsAt payloads log.now (D.told disk.old) → Tells (L.told link.old) (L.told link.new) (sent payloads n)) }
    ensures broken { OnErr result (L.told link.new ≡ L.told link.old) }
    ensures held { OnOk result (IsHeld D.Disk log.now disk.new) }
    ensures cause { IfErr result (λ stop. Cause stop (counts (L.read_faults link.old) (L.write_faults link.old) (D.faults disk.old)) (counts (L.read_faults link.new) (L.write_faults link.new) (D.faults disk.new))) }
    ensures later { AreLater (counts (L.read_faults link.old) (L.write_faults link.old) (D.faults disk.old)) (counts (L.read_faults link.new) (L.write_faults link.new) (D.faults disk.new)) }
    ensures same { D.told disk.new ≡ D.told disk.old }
    ensures time { D.time disk.old ≤ D.time disk.new }
{
    match log.payload(alloc, disk, n) {
        Ok(payload) => {
            let message = send_octets(alloc, n, payload.as_slice())?;
            write(message.as_slice(), link)
        }
        Err(LogFault::NoMemory) => Err(Stop::NoMemory),
        Err(LogFault::Disk) => Err(Stop::Disk),
    }
}
