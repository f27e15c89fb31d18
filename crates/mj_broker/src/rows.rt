//! Rows that are done on what is routed alone (ZeroMQ RFC 7; RFC 8 for names that begin with `mmi.`).
ghost use Rattle.std.specs.Prelude.{◌≡◌, List, OnOk};
ghost use Rattle.mj_base.specs.declared.event.Out.{Out as AnOut};
ghost use Rattle.mj_mmi.specs.Asking;
ghost use Rattle.mj_keeper.specs.Standing.{told_on};
ghost use Rattle.mj_machine.specs.MessageStep;
ghost use Rattle.mj_machine.specs.MessageStep.{answers_itself, begins, delivers_back, registers, rests, strays};
ghost use Rattle.mj_machine.specs.StoreState.{Told};
ghost use Rattle.mj_routing.specs.RoutingState.{Does};
ghost use Rattle.mj_routing.specs.Rows.{ends_it};

use mj_base::{Frames, Name, NoMemory, Out, Version};
use mj_keeper::Keeper;
use mj_machine::Voice;
use mj_mmi::asked;
use mj_queue::Request;
use mj_routing::{Routing, order_octets, reply_octets};
use mj_worker_cmd::{OrderAct, WorkerAct};
use std::alloc::Global;

/// A command that the sender's role doesn't allow: the connection is passed over from now on, and is told so.
pub fn refuse(
    alloc: Global,
    routing: &mut Routing,
    number: u64,
    voice: Voice,
    tickets: &Keeper,
    outs: &mut Vec<Out>,
) -> Result<(), NoMemory>
    ensures { OnOk result (Does routing.new outs.old.items outs.new.items (MessageStep.unexpected number voice (told_on tickets.now.shelf) routing.old)) }
{
    routing.go(number, tickets)?;
    let piece = order_octets(alloc, voice, OrderAct::Disconnect)?;
    routing.send(number, piece, tickets, outs)
}

/// Answers a request under a name of the broker's own.
pub fn answer(
    alloc: Global,
    routing: &mut Routing,
    number: u64,
    request: &Request,
    tickets: &Keeper,
    outs: &mut Vec<Out>,
) -> Result<(), NoMemory>
    ensures { OnOk result (Does routing.new outs.old.items outs.new.items (answers_itself number request.now (told_on tickets.now.shelf) routing.old)) }
{
    let known = knows(routing, tickets, &request.body);
    routing.set_client(number);
    let body = mj_mmi::answer(alloc, &request.service, known)?;
    let piece = reply_octets(alloc, true, request, body)?;
    routing.send(number, piece, tickets, outs)
}

/// Whether the name that is asked for is of a service that somebody serves.
fn knows(routing: &Routing, tickets: &Keeper, body: &Frames) -> bool
    ensures { result ≡ MessageStep.is_known (told_on tickets.now.shelf) (Asking.asked body.now) routing.now }
{
    match asked(body) {
        Some(name) => routing.is_known(&name, tickets),
        None => false,
    }
}

/// A worker's command of one that is no worker yet.
pub fn begin(
    alloc: Global,
    routing: &mut Routing,
    number: u64,
    voice: Voice,
    act: WorkerAct,
    tickets: &Keeper,
    outs: &mut Vec<Out>,
) -> Result<(), NoMemory>
    ensures { OnOk result (Does routing.new outs.old.items outs.new.items (begins number voice act (told_on tickets.now.shelf) routing.old)) }
{
    match act {
        WorkerAct::Ready(service) => enlist(alloc, routing, number, voice, &service, tickets, outs),
        WorkerAct::Disconnect => { routing.go(number, tickets) }
        WorkerAct::Heartbeat => refuse(alloc, routing, number, voice, tickets, outs),
        WorkerAct::Reply {
            last: _last,
            address: _address,
            body: _body,
        } => refuse(alloc, routing, number, voice, tickets, outs),
    }
}

/// READY.
fn enlist(
    alloc: Global,
    routing: &mut Routing,
    number: u64,
    voice: Voice,
    service: &Name,
    tickets: &Keeper,
    outs: &mut Vec<Out>,
) -> Result<(), NoMemory>
    ensures { OnOk result (Does routing.new outs.old.items outs.new.items (registers number voice service.now (told_on tickets.now.shelf) routing.old)) }
{
    if service.reserved(tickets.is_stored()) {
        refuse(alloc, routing, number, voice, tickets, outs)
    } else {
        routing.register(number, voice, service)
    }
}

/// A worker's command of a client.
pub fn stray(
    alloc: Global,
    routing: &mut Routing,
    number: u64,
    voice: Voice,
    act: &WorkerAct,
    tickets: &Keeper,
    outs: &mut Vec<Out>,
) -> Result<(), NoMemory>
    ensures { OnOk result (Does routing.new outs.old.items outs.new.items (strays number voice act.now (told_on tickets.now.shelf) routing.old)) }
{
    if is_disconnect(act) {
        routing.go(number, tickets)
    } else {
        refuse(alloc, routing, number, voice, tickets, outs)
    }
}

/// Passes a reply on to the client that asked.
pub fn deliver(
    alloc: Global,
    routing: &mut Routing,
    client: u64,
    last: bool,
    request: &Request,
    body: Frames,
    tickets: &Keeper,
    outs: &mut Vec<Out>,
) -> Result<(), NoMemory>
    ensures { OnOk result (Does routing.new outs.old.items outs.new.items (delivers_back client last request.now body (told_on tickets.now.shelf) routing.old)) }
{
    if routing.is_asking(client) && (last || is_two(request.version)) {
        let piece = reply_octets(alloc, last, request, body)?;
        routing.send(client, piece, tickets, outs)
    } else {
        Ok(())
    }
}

/// Behind a final reply the worker waits again.
pub fn rest(routing: &mut Routing, last: bool, number: u64, service: &Name) -> Result<(), NoMemory>
    ensures { OnOk result ((told : Told) (outs : List AnOut) → Does routing.new outs outs (rests last number service.now told routing.old)) }
{
    if last {
        routing.wait(number, service)
    } else {
        Ok(())
    }
}

fn is_disconnect(act: &WorkerAct) -> bool
    ensures { result ≡ ends_it act.now }
{
    match act {
        WorkerAct::Disconnect => true,
        WorkerAct::Ready(_) | WorkerAct::Heartbeat | WorkerAct::Reply { .. } => false,
    }
}

fn is_two(version: Version) -> bool
    ensures { result ≡ MessageStep.is_two version }
{
    match version {
        Version::One => false,
        Version::Two => true,
    }
}
