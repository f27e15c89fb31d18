//! One event, with the items of a stream in place of its bytes.
ghost use Rattle.std.specs.Prelude.{◌≡◌, ◌<◌, ◌≤◌, ◌^◌, List, None, true, IsOk, OnOk, IfErr};
ghost use Rattle.mj_base.specs.declared.event.Out.{Out as AnOut};
ghost use Rattle.mj_queue.specs.Settling.{pair};
ghost use Rattle.mj_machine.specs.Acts.{each};
ghost use Rattle.mj_machine.specs.Connections.{number_on};
ghost use Rattle.mj_machine.specs.DiskActs.{routes};
ghost use Rattle.mj_machine.specs.EventStep.{Closes, Gains, Opens, Reports, Ticks, closes_on, ends_at, gains, happens, item_step, opened, opens, reports_on};
ghost use Rattle.mj_machine.specs.MessageStep.{message_step};
ghost use Rattle.mj_machine.specs.Sending.{sends};
ghost use Rattle.mj_machine.specs.TickStep.{ticks};
ghost use Rattle.mj_handshake.specs.ReadyGrammar.{ready_frame};
ghost use Rattle.mj_handshake.specs.declared.socket_type.SocketType.TheVariants.{Router};
ghost use Rattle.mj_wire.specs.declared.item.WireItem;
ghost use Rattle.mj_keeper.specs.Standing.{IsSound, told_on};
ghost use Rattle.mj_routing.specs.RoutingState.{Does, IsIdleAt};
ghost use Rattle.mj_routing.specs.Staying.{IsQueueOf, StaysBeside};
ghost use Rattle.mj_titanic.specs.Acting.{Did, Stopped, around, nowhere, seen};
ghost use Rattle.mj_broker.specs.Acting.{Acted, around_item, as_it_is, stores_around, stores_each, stores_while};
ghost use Rattle.mj_broker.specs.Bodies.{AreShort, IsShort, IsShortItem};
ghost use Rattle.mj_broker.specs.BrokerState.{ClosesNothing};

use crate::message;
use crate::settle::settle;
use mj_base::{Frames, NoMemory, Octets, Out, Reason};
use mj_disk::Disk;
use mj_greeting::broker_greeting;
use mj_handshake::{SocketType, write_ready};
use mj_keeper::Keeper;
use mj_routing::{Routing, read_message};
use mj_titanic::{ActFault, Parts};
use mj_wire::WireItem;
use std::alloc::Global;

/// A peer has connected on the lane, where an earlier connection leaves.
pub fn open<D: Disk>(
    alloc: Global,
    parts: &mut Parts,
    disk: &mut D,
    lane: u32,
    outs: &mut Vec<Out>,
) -> Result<(), ActFault>
    requires few { parts.old.routing.next < 2 ^ 63 }
    requires queue { IsQueueOf parts.old.keeping.keeper.shelf parts.old.routing.queue }
    requires sound { IsSound D.Disk parts.old.keeping.keeper disk.old }
    ensures did { OnOk result (Did D.Disk (seen parts.old) disk.old (seen parts.new) disk.new outs.old.items outs.new.items (happens (Opens lane)) as_it_is) }
    ensures sound { OnOk result (IsSound D.Disk parts.new.keeping.keeper disk.new) }
    ensures stays { OnOk result (StaysBeside parts.old.keeping.keeper.shelf parts.new.keeping.keeper.shelf (opened lane parts.old.routing) parts.new.routing) }
    ensures stopped { IfErr result (λ fault. Stopped D.Disk fault (seen parts.old) disk.old disk.new as_it_is) }
    ensures settled { OnOk result (pair parts.new.routing.waiting parts.new.routing.queue ≡ None) }
    ensures keeper { parts.new.keeping.keeper ≡ record parts.old.keeping.keeper { shelf = parts.new.keeping.keeper.shelf } }
{
    match close_on(parts, disk, lane) {
        Ok(()) => {}
        Err(fault) => return Err(fault),
    }
    match greet(alloc, parts, disk, lane, outs) {
        Ok(()) => {}
        Err(fault) => return Err(fault),
    }
    settle(alloc, parts, disk, outs)
}

fn greet<D: Disk>(
    alloc: Global,
    parts: &mut Parts,
    disk: &D,
    lane: u32,
    outs: &mut Vec<Out>,
) -> Result<(), ActFault>
    requires few { parts.old.routing.next < 2 ^ 63 }
    requires free { number_on lane parts.old.routing.connections ≡ None }
    requires sound { IsSound D.Disk parts.old.keeping.keeper disk.now }
    ensures did { OnOk result (Did D.Disk (seen parts.old) disk.now (seen parts.new) disk.now outs.old.items outs.new.items (routes (opens lane)) nowhere) }
    ensures sound { OnOk result (IsSound D.Disk parts.new.keeping.keeper disk.now) }
    ensures stays { OnOk result (StaysBeside parts.old.keeping.keeper.shelf parts.new.keeping.keeper.shelf (opened lane parts.old.routing) parts.new.routing) }
    ensures stopped { IfErr result (λ fault. Stopped D.Disk fault (seen parts.old) disk.now disk.now nowhere) }
    ensures keeper { parts.new.keeping.keeper ≡ record parts.old.keeping.keeper { shelf = parts.new.keeping.keeper.shelf } }
{
    match route_greeting(alloc, &mut parts.routing, lane, &parts.keeping.keeper, outs) {
        Ok(()) => Ok(()),
        Err(NoMemory) => Err(ActFault::NoMemory),
    }
}

fn route_greeting(
    alloc: Global,
    routing: &mut Routing,
    lane: u32,
    tickets: &Keeper,
    outs: &mut Vec<Out>,
) -> Result<(), NoMemory>
    requires few { routing.old.next < 2 ^ 63 }
    requires free { number_on lane routing.old.connections ≡ None }
    ensures { OnOk result (Does routing.new outs.old.items outs.new.items (opens lane (told_on tickets.now.shelf) routing.old)) }
{
    let number = routing.add(alloc, lane)?;
    let mut piece = Octets::new(alloc);
    piece.push_all(&broker_greeting())?;
    routing.send(number, piece, tickets, outs)
}

/// The stream of the lane's connection, which has this number where there is one, has gained these items.
pub fn gain<D: Disk>(
    alloc: Global,
    parts: &mut Parts,
    disk: &mut D,
    lane: u32,
    items: &[WireItem],
    outs: &mut Vec<Out>,
) -> Result<(), ActFault>
    requires short { (told_on parts.old.keeping.keeper.shelf).stored ≡ true → AreShort items.now }
    requires queue { IsQueueOf parts.old.keeping.keeper.shelf parts.old.routing.queue }
    requires sound { IsSound D.Disk parts.old.keeping.keeper disk.old }
    ensures acted { OnOk result (Acted D.Disk parts.old disk.old parts.new disk.new outs.old.items outs.new.items (happens (Gains lane items.now)) (stores_while (Gains lane items.now))) }
    ensures stopped { IfErr result (λ fault. Stopped D.Disk fault (seen parts.old) disk.old disk.new (stores_while (Gains lane items.now))) }
    ensures settled { OnOk result (pair parts.new.routing.waiting parts.new.routing.queue ≡ None) }
    ensures keeper { parts.new.keeping.keeper ≡ record parts.old.keeping.keeper { shelf = parts.new.keeping.keeper.shelf } }
{
    match take_items(alloc, parts, disk, lane, items, outs) {
        Ok(()) => {}
        Err(fault) => return Err(fault),
    }
    settle(alloc, parts, disk, outs)
}

fn take_items<D: Disk>(
    alloc: Global,
    parts: &mut Parts,
    disk: &mut D,
    lane: u32,
    items: &[WireItem],
    outs: &mut Vec<Out>,
) -> Result<(), ActFault>
    requires short { (told_on parts.old.keeping.keeper.shelf).stored ≡ true → AreShort items.now }
    requires queue { IsQueueOf parts.old.keeping.keeper.shelf parts.old.routing.queue }
    requires sound { IsSound D.Disk parts.old.keeping.keeper disk.old }
    ensures acted { OnOk result (Acted D.Disk parts.old disk.old parts.new disk.new outs.old.items outs.new.items (gains (number_on lane parts.old.routing.connections) items.now) (stores_around (number_on lane parts.old.routing.connections) items.now)) }
    ensures stopped { IfErr result (λ fault. Stopped D.Disk fault (seen parts.old) disk.old disk.new (stores_around (number_on lane parts.old.routing.connections) items.now)) }
    ensures keeper { parts.new.keeping.keeper ≡ record parts.old.keeping.keeper { shelf = parts.new.keeping.keeper.shelf } }
{
    match parts.routing.number_on(lane) {
        None => Ok(()),
        Some(number) => take_all(alloc, parts, disk, number, items, outs),
    }
}

fn take_all<D: Disk>(
    alloc: Global,
    parts: &mut Parts,
    disk: &mut D,
    number: u64,
    items: &[WireItem],
    outs: &mut Vec<Out>,
) -> Result<(), ActFault>
    requires short { (told_on parts.old.keeping.keeper.shelf).stored ≡ true → AreShort items.now }
    requires queue { IsQueueOf parts.old.keeping.keeper.shelf parts.old.routing.queue }
    requires sound { IsSound D.Disk parts.old.keeping.keeper disk.old }
    ensures acted { OnOk result (Acted D.Disk parts.old disk.old parts.new disk.new outs.old.items outs.new.items (each (item_step number) items.now) (stores_each number items.now)) }
    ensures stopped { IfErr result (λ fault. Stopped D.Disk fault (seen parts.old) disk.old disk.new (stores_each number items.now)) }
    ensures keeper { parts.new.keeping.keeper ≡ record parts.old.keeping.keeper { shelf = parts.new.keeping.keeper.shelf } }
{
    for item in items {
        match take_item(alloc, parts, disk, number, item, outs) {
            Ok(()) => {}
            Err(fault) => return Err(fault),
        }
    }
    Ok(())
}

fn take_item<D: Disk>(
    alloc: Global,
    parts: &mut Parts,
    disk: &mut D,
    number: u64,
    item: &WireItem,
    outs: &mut Vec<Out>,
) -> Result<(), ActFault>
    requires short { (told_on parts.old.keeping.keeper.shelf).stored ≡ true → IsShortItem item.now }
    requires queue { IsQueueOf parts.old.keeping.keeper.shelf parts.old.routing.queue }
    requires sound { IsSound D.Disk parts.old.keeping.keeper disk.old }
    ensures acted { OnOk result (Acted D.Disk parts.old disk.old parts.new disk.new outs.old.items outs.new.items (item_step number item.now) (around_item number item.now)) }
    ensures stopped { IfErr result (λ fault. Stopped D.Disk fault (seen parts.old) disk.old disk.new (around_item number item.now)) }
    ensures keeper { parts.new.keeping.keeper ≡ record parts.old.keeping.keeper { shelf = parts.new.keeping.keeper.shelf } }
{
    match item {
        WireItem::Accepted => send_ready(alloc, parts, disk, number, outs),
        WireItem::Ready(_kind) => Ok(()),
        WireItem::Message(message) => take_message(alloc, parts, disk, number, message, outs),
        WireItem::Ended(reason, at) => end_at(parts, disk, number, *reason, *at, outs),
    }
}

/// Does what this message of this connection says, and settles.
fn take_message<D: Disk>(
    alloc: Global,
    parts: &mut Parts,
    disk: &mut D,
    number: u64,
    message: &Frames,
    outs: &mut Vec<Out>,
) -> Result<(), ActFault>
    requires short { (told_on parts.old.keeping.keeper.shelf).stored ≡ true → IsShort message.now }
    requires queue { IsQueueOf parts.old.keeping.keeper.shelf parts.old.routing.queue }
    requires sound { IsSound D.Disk parts.old.keeping.keeper disk.old }
    ensures acted { OnOk result (Acted D.Disk parts.old disk.old parts.new disk.new outs.old.items outs.new.items (message_step number message.now) (around_item number (WireItem.Message message.now))) }
    ensures stopped { IfErr result (λ fault. Stopped D.Disk fault (seen parts.old) disk.old disk.new (around_item number (WireItem.Message message.now))) }
    ensures keeper { parts.new.keeping.keeper ≡ record parts.old.keeping.keeper { shelf = parts.new.keeping.keeper.shelf } }
{
    let said = match read_message(alloc, message) {
        Ok(said) => said,
        Err(NoMemory) => return Err(ActFault::NoMemory),
    };
    match message::say(alloc, parts, disk, number, said, outs) {
        Ok(()) => {}
        Err(fault) => return Err(fault),
    }
    settle(alloc, parts, disk, outs)
}

/// READY follows the peer's greeting.
fn send_ready<D: Disk>(
    alloc: Global,
    parts: &mut Parts,
    disk: &D,
    number: u64,
    outs: &mut Vec<Out>,
) -> Result<(), ActFault>
    requires sound { IsSound D.Disk parts.old.keeping.keeper disk.now }
    ensures acted { OnOk result (Acted D.Disk parts.old disk.now parts.new disk.now outs.old.items outs.new.items (item_step number WireItem.Accepted) (around (item_step number WireItem.Accepted))) }
    ensures stopped { IfErr result (λ fault. Stopped D.Disk fault (seen parts.old) disk.now disk.now (around (item_step number WireItem.Accepted))) }
    ensures keeper { parts.new.keeping.keeper ≡ record parts.old.keeping.keeper { shelf = parts.new.keeping.keeper.shelf } }
{
    match route_ready(
        alloc,
        &mut parts.routing,
        number,
        &parts.keeping.keeper,
        outs,
    ) {
        Ok(()) => Ok(()),
        Err(NoMemory) => Err(ActFault::NoMemory),
    }
}

fn route_ready(
    alloc: Global,
    routing: &mut Routing,
    number: u64,
    tickets: &Keeper,
    outs: &mut Vec<Out>,
) -> Result<(), NoMemory>
    ensures { OnOk result (Does routing.new outs.old.items outs.new.items (sends number (ready_frame Router) (told_on tickets.now.shelf) routing.old)) }
{
    let mut piece = Octets::new(alloc);
    write_ready(SocketType::Router, &mut piece)?;
    routing.send(number, piece, tickets, outs)
}

/// A fault of its stream ends the connection.
fn end_at<D: Disk>(
    parts: &mut Parts,
    disk: &D,
    number: u64,
    reason: Reason,
    at: u64,
    outs: &mut Vec<Out>,
) -> Result<(), ActFault>
    requires sound { IsSound D.Disk parts.old.keeping.keeper disk.now }
    ensures acted { OnOk result (Acted D.Disk parts.old disk.now parts.new disk.now outs.old.items outs.new.items (routes (ends_at number reason at)) (around (routes (ends_at number reason at)))) }
    ensures stopped { IfErr result (λ fault. Stopped D.Disk fault (seen parts.old) disk.now disk.now (around (routes (ends_at number reason at)))) }
    ensures keeper { parts.new.keeping.keeper ≡ record parts.old.keeping.keeper { shelf = parts.new.keeping.keeper.shelf } }
{
    match route_end(
        &mut parts.routing,
        number,
        reason,
        at,
        &parts.keeping.keeper,
        outs,
    ) {
        Ok(()) => Ok(()),
        Err(NoMemory) => Err(ActFault::NoMemory),
    }
}

fn route_end(
    routing: &mut Routing,
    number: u64,
    reason: Reason,
    at: u64,
    tickets: &Keeper,
    outs: &mut Vec<Out>,
) -> Result<(), NoMemory>
    ensures { OnOk result (Does routing.new outs.old.items outs.new.items (ends_at number reason at (told_on tickets.now.shelf) routing.old)) }
{
    match routing.look_up(number) {
        None => Ok(()),
        Some(standing) => routing.end(standing.lane, number, reason, at, tickets, outs),
    }
}

/// The oldest piece on its way to the lane's peer was sent.
pub fn report<D: Disk>(
    alloc: Global,
    parts: &mut Parts,
    disk: &mut D,
    lane: u32,
    outs: &mut Vec<Out>,
) -> Result<(), ActFault>
    requires queue { IsQueueOf parts.old.keeping.keeper.shelf parts.old.routing.queue }
    requires sound { IsSound D.Disk parts.old.keeping.keeper disk.old }
    ensures acted { OnOk result (Acted D.Disk parts.old disk.old parts.new disk.new outs.old.items outs.new.items (happens (Reports lane)) as_it_is) }
    ensures stopped { IfErr result (λ fault. Stopped D.Disk fault (seen parts.old) disk.old disk.new as_it_is) }
    ensures idle { pair parts.old.routing.waiting parts.old.routing.queue ≡ None → IsOk result }
    ensures settled { OnOk result (pair parts.new.routing.waiting parts.new.routing.queue ≡ None) }
    ensures keeper { parts.new.keeping.keeper ≡ record parts.old.keeping.keeper { shelf = parts.new.keeping.keeper.shelf } }
{
    report_on(parts, disk, lane);
    settle(alloc, parts, disk, outs)
}

fn report_on<D: Disk>(parts: &mut Parts, disk: &D, lane: u32)
    requires sound { IsSound D.Disk parts.old.keeping.keeper disk.now }
    ensures acted { (outs : List AnOut) → Acted D.Disk parts.old disk.now parts.new disk.now outs outs (routes (reports_on lane)) (around (routes (reports_on lane))) }
    ensures pair { pair parts.new.routing.waiting parts.new.routing.queue ≡ pair parts.old.routing.waiting parts.old.routing.queue }
    ensures keeping { parts.new.keeping ≡ parts.old.keeping }
{
    let Some(number) = parts.routing.number_on(lane) else {
        return;
    };
    parts.routing.note_delivered(number);
}

/// The lane's peer has gone.
pub fn close<D: Disk>(
    alloc: Global,
    parts: &mut Parts,
    disk: &mut D,
    lane: u32,
    outs: &mut Vec<Out>,
) -> Result<(), ActFault>
    requires queue { IsQueueOf parts.old.keeping.keeper.shelf parts.old.routing.queue }
    requires sound { IsSound D.Disk parts.old.keeping.keeper disk.old }
    ensures acted { OnOk result (Acted D.Disk parts.old disk.old parts.new disk.new outs.old.items outs.new.items (happens (Closes lane)) as_it_is) }
    ensures stopped { IfErr result (λ fault. Stopped D.Disk fault (seen parts.old) disk.old disk.new as_it_is) }
    ensures idle { ClosesNothing (told_on parts.old.keeping.keeper.shelf) lane parts.old.routing → pair parts.old.routing.waiting parts.old.routing.queue ≡ None → IsOk result }
    ensures settled { OnOk result (pair parts.new.routing.waiting parts.new.routing.queue ≡ None) }
    ensures keeper { parts.new.keeping.keeper ≡ record parts.old.keeping.keeper { shelf = parts.new.keeping.keeper.shelf } }
{
    match close_on(parts, disk, lane) {
        Ok(()) => {}
        Err(fault) => return Err(fault),
    }
    settle(alloc, parts, disk, outs)
}

fn close_on<D: Disk>(parts: &mut Parts, disk: &D, lane: u32) -> Result<(), ActFault>
    requires sound { IsSound D.Disk parts.old.keeping.keeper disk.now }
    ensures acted { OnOk result ((outs : List AnOut) → Acted D.Disk parts.old disk.now parts.new disk.now outs outs (routes (closes_on lane)) (around (routes (closes_on lane)))) }
    ensures stopped { IfErr result (λ fault. Stopped D.Disk fault (seen parts.old) disk.now disk.now (around (routes (closes_on lane)))) }
    ensures idle { ClosesNothing (told_on parts.old.keeping.keeper.shelf) lane parts.old.routing → IsOk result }
    ensures settled { ClosesNothing (told_on parts.old.keeping.keeper.shelf) lane parts.old.routing → pair parts.old.routing.waiting parts.old.routing.queue ≡ None
        → OnOk result (pair parts.new.routing.waiting parts.new.routing.queue ≡ None) }
    ensures free { OnOk result (number_on lane parts.new.routing.connections ≡ None) }
    ensures keeping { parts.new.keeping ≡ parts.old.keeping }
{
    let Some(number) = parts.routing.number_on(lane) else {
        return Ok(());
    };
    match parts.routing.remove(number, &parts.keeping.keeper) {
        Ok(()) => Ok(()),
        Err(NoMemory) => Err(ActFault::NoMemory),
    }
}

/// It is so many milliseconds since the start.
pub fn pass<D: Disk>(
    alloc: Global,
    parts: &mut Parts,
    disk: &mut D,
    ms: u64,
    outs: &mut Vec<Out>,
) -> Result<(), ActFault>
    requires bound { ms ≤ 1000000000000000 }
    requires queue { IsQueueOf parts.old.keeping.keeper.shelf parts.old.routing.queue }
    requires sound { IsSound D.Disk parts.old.keeping.keeper disk.old }
    ensures acted { OnOk result (Acted D.Disk parts.old disk.old parts.new disk.new outs.old.items outs.new.items (happens (Ticks ms)) as_it_is) }
    ensures stopped { IfErr result (λ fault. Stopped D.Disk fault (seen parts.old) disk.old disk.new as_it_is) }
    ensures idle { pair parts.old.routing.waiting parts.old.routing.queue ≡ None → IsIdleAt ms parts.old.routing → IsOk result }
    ensures settled { OnOk result (pair parts.new.routing.waiting parts.new.routing.queue ≡ None) }
    ensures keeper { parts.new.keeping.keeper ≡ record parts.old.keeping.keeper { shelf = parts.new.keeping.keeper.shelf } }
{
    match tick(alloc, parts, disk, ms, outs) {
        Ok(()) => {}
        Err(fault) => return Err(fault),
    }
    settle(alloc, parts, disk, outs)
}

fn tick<D: Disk>(
    alloc: Global,
    parts: &mut Parts,
    disk: &D,
    ms: u64,
    outs: &mut Vec<Out>,
) -> Result<(), ActFault>
    requires bound { ms ≤ 1000000000000000 }
    requires sound { IsSound D.Disk parts.old.keeping.keeper disk.now }
    ensures acted { OnOk result (Acted D.Disk parts.old disk.now parts.new disk.now outs.old.items outs.new.items (routes (ticks ms)) (around (routes (ticks ms)))) }
    ensures stopped { IfErr result (λ fault. Stopped D.Disk fault (seen parts.old) disk.now disk.now (around (routes (ticks ms)))) }
    ensures idle { IsIdleAt ms parts.old.routing → IsOk result }
    ensures pair { IsIdleAt ms parts.old.routing → OnOk result (pair parts.new.routing.waiting parts.new.routing.queue ≡ pair parts.old.routing.waiting parts.old.routing.queue) }
    ensures keeping { parts.new.keeping ≡ parts.old.keeping }
{
    match parts.routing.tick(alloc, ms, &parts.keeping.keeper, outs) {
        Ok(()) => Ok(()),
        Err(NoMemory) => Err(ActFault::NoMemory),
    }
}
