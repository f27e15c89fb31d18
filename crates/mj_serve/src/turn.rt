ghost use Rattle.std.specs.Prelude.{◌≡◌, ◌+◌, ◌-◌, ◌<◌, ◌≤◌, ◌^◌, min, not, true, false, [], ◌∷◌, None, IfOk, IfErr, OnOk, OnErr, IsErrOf};
ghost use Rattle.mj_base.specs.declared.limits.Limits.{Limits as AnyLimits};
ghost use Rattle.mj_broker.specs.Handling.{limits_of};
ghost use Rattle.mj_keeper.specs.Standing.{IsSound, MayPut};
ghost use Rattle.mj_keeper.specs.declared.keeper.Shelf.TheVariants.{Absent};
ghost use Rattle.mj_machine.specs.MachineState.{Machine};
ghost use Rattle.mj_serve.specs.Counts.{pieces_in};
ghost use Rattle.mj_serve.specs.Faults.{IsFileFault, served_as};
ghost use Rattle.mj_serve.specs.Given.{is_stop};
ghost use Rattle.mj_serve.specs.Running.{Gives, Ran, RanOut, Stood};

use crate::fault::ServeFault;
use crate::ports::Ports;
use crate::summary::Summary;
use mj_base::{Event, Out};
use mj_broker::{Broker, EventFault};
use mj_disk::Disk;
use mj_journal::OpenFault;
use std::alloc::Global;

/// Takes the next event, and gives the ports what the broker does of it; false at the end.
pub fn turn<P: Ports, D: Disk>(
    alloc: Global,
    broker: &mut Broker,
    ports: &mut P,
    disk: &mut D,
    summary: &mut Summary,
) -> Result<bool, ServeFault>
    requires going { P.stopped ports.old ≡ false }
    requires lanes { P.lanes_in ports.old ≤ (limits_of broker.old).lanes }
    requires few { broker.old.state.next < 2 ^ 63 }
    requires fresh { broker.old.spent ≡ false }
    requires sound { IsSound D.Disk broker.old.keeper disk.old }
    ensures ran { OnOk result ((origin : P) (began : D) (limits : AnyLimits) (first : Machine) → Ran P.stand D.Disk origin began limits first ports.old disk.old broker.old summary.old → Ran P.stand D.Disk origin began limits first ports.new disk.new broker.new summary.new) }
    ensures ran_out { OnErr result ((origin : P) (began : D) (limits : AnyLimits) (first : Machine) → Ran P.stand D.Disk origin began limits first ports.old disk.old broker.old summary.old → RanOut P.stand D.Disk origin began limits first ports.new disk.new) }
    ensures stood { (origin : P) → Stood P.stand origin ports.old → Stood P.stand origin ports.new }
    ensures refused { IfErr result (λ fault. IsFileFault fault → D.told disk.old ≡ None) }
    ensures kind { ¬ IsErrOf result ServeFault.DiskFault }
    ensures silent { OnOk result (D.told disk.new ≡ None → D.told disk.old ≡ None) }
    ensures plain { broker.old.keeper.shelf ≡ Absent → D.told disk.new ≡ D.told disk.old }
    ensures absent { OnOk result (broker.old.keeper.shelf ≡ Absent → broker.new.keeper.shelf ≡ Absent) }
    ensures going { IfOk result (λ more. P.stopped ports.new ≡ not more) }
    ensures fewer { IfOk result (λ more. more ≡ true → P.left ports.new < P.left ports.old) }
    ensures lanes { P.lanes_in ports.new ≡ P.lanes_in ports.old }
    ensures limits { limits_of broker.new ≡ limits_of broker.old }
    ensures fresh { OnOk result (broker.new.spent ≡ false) }
    ensures sound { OnOk result (IsSound D.Disk broker.new.keeper disk.new) }
    ensures next { OnOk result (broker.new.state.next ≤ broker.old.state.next + 1) }
{
    let Ok(event) = ports.next() else {
        return Err(ServeFault::NoMemory);
    };
    if is_end(&event) {
        return Ok(false);
    }
    let mut outs = Vec::new(alloc);
    match broker.event(alloc, event, disk, &mut outs) {
        Ok(()) => {
            summary.events = summary.events.saturating_add(1);
            summary.pieces = hand_out(outs, ports, disk, summary.pieces);
            Ok(true)
        }
        Err(EventFault::Spent) => unreachable!(),
        Err(EventFault::NoMemory) => Err(ServeFault::NoMemory),
        Err(EventFault::Refused(fault)) => Err(fault_of(fault)),
    }
}

fn is_end(event: &Event) -> bool
    ensures { result ≡ is_stop event.now }
{
    match event {
        Event::Stop => true,
        Event::Open(_lane) => false,
        Event::Bytes(_lane, _piece) => false,
        Event::Sent(_lane) => false,
        Event::Close(_lane) => false,
        Event::Tick(_ms) => false,
    }
}

/// Gives the ports all that is to be done, in order; the answer is the count of pieces behind it.
fn hand_out<P: Ports, D: Disk>(outs: Vec<Out>, ports: &mut P, disk: &D, pieces: u64) -> u64
    requires { MayPut D.Disk disk.now }
    ensures gives { Gives P.stand ports.old ports.new (D.time disk.now) outs.items }
    ensures pieces { result ≡ min (pieces + pieces_in outs.items) (2 ^ 64 - 1) }
    ensures stopped { P.stopped ports.new ≡ P.stopped ports.old }
    ensures no_more { P.left ports.new ≤ P.left ports.old }
    ensures lanes { P.lanes_in ports.new ≡ P.lanes_in ports.old }
{
    let mut count = pieces;
    for out in outs {
        count = hand(out, ports, disk, count);
    }
    count
}

fn hand<P: Ports, D: Disk>(out: Out, ports: &mut P, disk: &D, pieces: u64) -> u64
    requires { MayPut D.Disk disk.now }
    ensures gives { Gives P.stand ports.old ports.new (D.time disk.now) (out ∷ []) }
    ensures pieces { result ≡ min (pieces + pieces_in (out ∷ [])) (2 ^ 64 - 1) }
    ensures stopped { P.stopped ports.new ≡ P.stopped ports.old }
    ensures no_more { P.left ports.new ≤ P.left ports.old }
    ensures lanes { P.lanes_in ports.new ≡ P.lanes_in ports.old }
{
    match out {
        Out::Piece(lane, piece) => {
            ports.put(lane, piece, disk);
            pieces.saturating_add(1)
        }
        Out::End(lane, reason, at) => {
            ports.end(lane, reason, at);
            pieces
        }
        Out::Note(note) => {
            ports.note(note);
            pieces
        }
    }
}

pub fn fault_of(fault: OpenFault) -> ServeFault
    ensures { result ≡ served_as fault }
{
    match fault {
        OpenFault::NotAStore => ServeFault::NotAStore,
        OpenFault::Version(version) => ServeFault::Version(version),
        OpenFault::Damaged(at) => ServeFault::Damaged(at),
        OpenFault::DiskFault => ServeFault::DiskFault,
        OpenFault::NoMemory => ServeFault::NoMemory,
    }
}
