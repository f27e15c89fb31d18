//! What one message does, row by row (ZeroMQ RFC 7; RFC 8 for names that begin with `mmi.`, RFC 9 for those that begin
//! with `titanic.`).
ghost use Rattle.std.specs.Prelude.{◌≡◌, ℕ, List, true, IsSome, OnOk, IfOk, IfErr};
ghost use Rattle.mj_base.specs.declared.event.Out.{Out as AnOut};
ghost use Rattle.mj_queue.specs.Settling.{is_of_client};
ghost use Rattle.mj_machine.specs.Acts.{quiet};
ghost use Rattle.mj_machine.specs.DiskActs.{routes};
ghost use Rattle.mj_machine.specs.Leaving.{held_by};
ghost use Rattle.mj_machine.specs.MessageStep;
ghost use Rattle.mj_machine.specs.MessageStep.{answers_itself, asks, begins, delivers, delivers_back, departs, queues, replied, request_of, rests, says, says_by, strays, unexpected, works, works_on};
ghost use Rattle.mj_machine.specs.TitanicStep.{stores};
ghost use Rattle.mj_machine.specs.Connections.{connection_of, worker_voice};
ghost use Rattle.mj_machine.specs.declared.connection.Role;
ghost use Rattle.mj_keeper.specs.Standing.{IsSound, told_on};
ghost use Rattle.mj_titanic.specs.Acting.{Stopped, around, seen};
ghost use Rattle.mj_broker.specs.Acting.{Acted, hears, serves_client, takes_reply};
ghost use Rattle.mj_broker.specs.Bodies.{IsShort, IsShortAct, IsShortSaid};

use crate::rows;
use mj_base::{Frames, Name, NoMemory, Octets, Out, Version};
use mj_client_cmd::ClientCmd;
use mj_disk::Disk;
use mj_machine::{Registration, Role, Said, Voice};
use mj_queue::{Origin, Request};
use mj_routing::{Standing, is_address};
use mj_titanic::{ActFault, Parts};
use mj_worker_cmd::{WorkerAct, WorkerCmd};
use std::alloc::Global;

/// Does what was said on this connection.
pub fn say<D: Disk>(
    alloc: Global,
    parts: &mut Parts,
    disk: &mut D,
    number: u64,
    said: Said,
    outs: &mut Vec<Out>,
) -> Result<(), ActFault>
    requires short { (told_on parts.old.keeping.keeper.shelf).stored ≡ true → IsShortSaid said }
    requires sound { IsSound D.Disk parts.old.keeping.keeper disk.old }
    ensures acted { OnOk result (Acted D.Disk parts.old disk.old parts.new disk.new outs.old.items outs.new.items (says_by number (connection_of number parts.old.routing.connections) said) (around (says_by number (connection_of number parts.old.routing.connections) said))) }
    ensures stopped { IfErr result (λ fault. Stopped D.Disk fault (seen parts.old) disk.old disk.new (around (says_by number (connection_of number parts.old.routing.connections) said))) }
    ensures keeper { parts.new.keeping.keeper ≡ record parts.old.keeping.keeper { shelf = parts.new.keeping.keeper.shelf } }
{
    match parts.routing.look_up(number) {
        None => Ok(()),
        Some(standing) => say_as(alloc, parts, disk, standing, number, said, outs),
    }
}

/// By the role of the connection.
fn say_as<D: Disk>(
    alloc: Global,
    parts: &mut Parts,
    disk: &mut D,
    standing: Standing,
    number: u64,
    said: Said,
    outs: &mut Vec<Out>,
) -> Result<(), ActFault>
    requires short { (told_on parts.old.keeping.keeper.shelf).stored ≡ true → IsShortSaid said }
    requires sound { IsSound D.Disk parts.old.keeping.keeper disk.old }
    ensures acted { OnOk result (Acted D.Disk parts.old disk.old parts.new disk.new outs.old.items outs.new.items (says standing.lane number standing.role said) (around (says standing.lane number standing.role said))) }
    ensures stopped { IfErr result (λ fault. Stopped D.Disk fault (seen parts.old) disk.old disk.new (around (says standing.lane number standing.role said))) }
    ensures keeper { parts.new.keeping.keeper ≡ record parts.old.keeping.keeper { shelf = parts.new.keeping.keeper.shelf } }
{
    let lane = standing.lane;
    let role = standing.role;
    match role {
        Role::Gone => Ok(()),
        Role::Fresh => say_fresh(alloc, parts, disk, lane, number, said, outs),
        Role::Client => say_client(alloc, parts, disk, lane, number, said, outs),
        Role::Worker(registration) => {
            say_worker(alloc, parts, disk, number, registration, said, outs)
        }
    }
}

/// Of one that has said nothing yet.
fn say_fresh<D: Disk>(
    alloc: Global,
    parts: &mut Parts,
    disk: &mut D,
    lane: u32,
    number: u64,
    said: Said,
    outs: &mut Vec<Out>,
) -> Result<(), ActFault>
    requires short { (told_on parts.old.keeping.keeper.shelf).stored ≡ true → IsShortSaid said }
    requires sound { IsSound D.Disk parts.old.keeping.keeper disk.old }
    ensures acted { OnOk result (Acted D.Disk parts.old disk.old parts.new disk.new outs.old.items outs.new.items (says lane number Role.Fresh said) (around (says lane number Role.Fresh said))) }
    ensures stopped { IfErr result (λ fault. Stopped D.Disk fault (seen parts.old) disk.old disk.new (around (says lane number Role.Fresh said))) }
    ensures keeper { parts.new.keeping.keeper ≡ record parts.old.keeping.keeper { shelf = parts.new.keeping.keeper.shelf } }
{
    match said {
        Said::Neither => depart(parts, disk, number),
        Said::Asks(cmd) => ask(
            alloc,
            parts,
            disk,
            lane,
            number,
            request_by(number, cmd),
            outs,
        ),
        Said::Serves(cmd) => begin(alloc, parts, disk, number, voice_in(&cmd), cmd.act, outs),
    }
}

/// Of a client.
fn say_client<D: Disk>(
    alloc: Global,
    parts: &mut Parts,
    disk: &mut D,
    lane: u32,
    number: u64,
    said: Said,
    outs: &mut Vec<Out>,
) -> Result<(), ActFault>
    requires short { (told_on parts.old.keeping.keeper.shelf).stored ≡ true → IsShortSaid said }
    requires sound { IsSound D.Disk parts.old.keeping.keeper disk.old }
    ensures acted { OnOk result (Acted D.Disk parts.old disk.old parts.new disk.new outs.old.items outs.new.items (says lane number Role.Client said) (around (says lane number Role.Client said))) }
    ensures stopped { IfErr result (λ fault. Stopped D.Disk fault (seen parts.old) disk.old disk.new (around (says lane number Role.Client said))) }
    ensures keeper { parts.new.keeping.keeper ≡ record parts.old.keeping.keeper { shelf = parts.new.keeping.keeper.shelf } }
{
    match said {
        Said::Neither => depart(parts, disk, number),
        Said::Asks(cmd) => ask(
            alloc,
            parts,
            disk,
            lane,
            number,
            request_by(number, cmd),
            outs,
        ),
        Said::Serves(cmd) => stray(alloc, parts, disk, number, voice_in(&cmd), &cmd.act, outs),
    }
}

/// Of a worker.
fn say_worker<D: Disk>(
    alloc: Global,
    parts: &mut Parts,
    disk: &mut D,
    number: u64,
    registration: Registration,
    said: Said,
    outs: &mut Vec<Out>,
) -> Result<(), ActFault>
    requires short { (told_on parts.old.keeping.keeper.shelf).stored ≡ true → IsShortSaid said }
    requires sound { IsSound D.Disk parts.old.keeping.keeper disk.old }
    ensures acted { OnOk result ((lane : ℕ) → Acted D.Disk parts.old disk.old parts.new disk.new outs.old.items outs.new.items (says lane number (Role.Worker registration) said) (around (says lane number (Role.Worker registration) said))) }
    ensures stopped { IfErr result (λ fault. (lane : ℕ) → Stopped D.Disk fault (seen parts.old) disk.old disk.new (around (says lane number (Role.Worker registration) said))) }
    ensures keeper { parts.new.keeping.keeper ≡ record parts.old.keeping.keeper { shelf = parts.new.keeping.keeper.shelf } }
{
    match said {
        Said::Neither => depart(parts, disk, number),
        Said::Asks(_cmd) => refuse(alloc, parts, disk, number, voice_at(&registration), outs),
        Said::Serves(cmd) => work(alloc, parts, disk, number, registration, cmd, outs),
    }
}

/// A client's request.
fn ask<D: Disk>(
    alloc: Global,
    parts: &mut Parts,
    disk: &mut D,
    lane: u32,
    number: u64,
    request: Request,
    outs: &mut Vec<Out>,
) -> Result<(), ActFault>
    requires client { is_of_client request.origin ≡ true }
    requires short { (told_on parts.old.keeping.keeper.shelf).stored ≡ true → IsShort request.body }
    requires sound { IsSound D.Disk parts.old.keeping.keeper disk.old }
    ensures acted { OnOk result (Acted D.Disk parts.old disk.old parts.new disk.new outs.old.items outs.new.items (asks lane number request) (around (asks lane number request))) }
    ensures stopped { IfErr result (λ fault. Stopped D.Disk fault (seen parts.old) disk.old disk.new (around (asks lane number request))) }
    ensures keeper { parts.new.keeping.keeper ≡ record parts.old.keeping.keeper { shelf = parts.new.keeping.keeper.shelf } }
{
    if request.service.reserved(false) {
        answer(alloc, parts, disk, number, &request, outs)
    } else if request.service.reserved(parts.keeping.keeper.is_stored()) {
        serve(alloc, parts, disk, number, &request, outs)
    } else {
        queue(parts, disk, lane, number, request, outs)
    }
}

/// A request under a name of Titanic's.
fn serve<D: Disk>(
    alloc: Global,
    parts: &mut Parts,
    disk: &mut D,
    number: u64,
    request: &Request,
    outs: &mut Vec<Out>,
) -> Result<(), ActFault>
    requires short { (told_on parts.old.keeping.keeper.shelf).stored ≡ true → IsShort request.now.body }
    requires stored { (told_on parts.old.keeping.keeper.shelf).stored ≡ true }
    requires sound { IsSound D.Disk parts.old.keeping.keeper disk.old }
    ensures acted { OnOk result (Acted D.Disk parts.old disk.old parts.new disk.new outs.old.items outs.new.items (serves_client number request.now) (around (serves_client number request.now))) }
    ensures stopped { IfErr result (λ fault. Stopped D.Disk fault (seen parts.old) disk.old disk.new (around (serves_client number request.now))) }
    ensures keeper { parts.new.keeping.keeper ≡ record parts.old.keeping.keeper { shelf = parts.new.keeping.keeper.shelf } }
{
    parts.routing.set_client(number);
    parts.serve(alloc, disk, number, request, outs)
}

/// A worker's command.
fn work<D: Disk>(
    alloc: Global,
    parts: &mut Parts,
    disk: &mut D,
    number: u64,
    registration: Registration,
    cmd: WorkerCmd,
    outs: &mut Vec<Out>,
) -> Result<(), ActFault>
    requires short { (told_on parts.old.keeping.keeper.shelf).stored ≡ true → IsShortAct cmd.act }
    requires sound { IsSound D.Disk parts.old.keeping.keeper disk.old }
    ensures acted { OnOk result (Acted D.Disk parts.old disk.old parts.new disk.new outs.old.items outs.new.items (works number registration cmd) (around (works number registration cmd))) }
    ensures stopped { IfErr result (λ fault. Stopped D.Disk fault (seen parts.old) disk.old disk.new (around (works number registration cmd))) }
    ensures keeper { parts.new.keeping.keeper ≡ record parts.old.keeping.keeper { shelf = parts.new.keeping.keeper.shelf } }
{
    if is_same_version(cmd.version, registration.version) {
        work_on(alloc, parts, disk, number, registration, cmd.act, outs)
    } else {
        stray(
            alloc,
            parts,
            disk,
            number,
            voice_at(&registration),
            &cmd.act,
            outs,
        )
    }
}

/// In the worker's version.
fn work_on<D: Disk>(
    alloc: Global,
    parts: &mut Parts,
    disk: &mut D,
    number: u64,
    registration: Registration,
    act: WorkerAct,
    outs: &mut Vec<Out>,
) -> Result<(), ActFault>
    requires short { (told_on parts.old.keeping.keeper.shelf).stored ≡ true → IsShortAct act }
    requires sound { IsSound D.Disk parts.old.keeping.keeper disk.old }
    ensures acted { OnOk result (Acted D.Disk parts.old disk.old parts.new disk.new outs.old.items outs.new.items (works_on number registration act) (around (works_on number registration act))) }
    ensures stopped { IfErr result (λ fault. Stopped D.Disk fault (seen parts.old) disk.old disk.new (around (works_on number registration act))) }
    ensures keeper { parts.new.keeping.keeper ≡ record parts.old.keeping.keeper { shelf = parts.new.keeping.keeper.shelf } }
{
    match act {
        WorkerAct::Heartbeat => mark(parts, disk, number),
        WorkerAct::Disconnect => depart(parts, disk, number),
        WorkerAct::Ready(_service) => {
            refuse(alloc, parts, disk, number, voice_at(&registration), outs)
        }
        WorkerAct::Reply {
            last,
            address,
            body,
        } => reply(
            alloc,
            parts,
            disk,
            number,
            registration,
            last,
            address,
            body,
            outs,
        ),
    }
}

/// A reply, which counts where it names who asked what the worker holds.
fn reply<D: Disk>(
    alloc: Global,
    parts: &mut Parts,
    disk: &mut D,
    number: u64,
    registration: Registration,
    last: bool,
    address: Octets,
    body: Frames,
    outs: &mut Vec<Out>,
) -> Result<(), ActFault>
    requires short { (told_on parts.old.keeping.keeper.shelf).stored ≡ true → IsShort body }
    requires sound { IsSound D.Disk parts.old.keeping.keeper disk.old }
    ensures acted { OnOk result (Acted D.Disk parts.old disk.old parts.new disk.new outs.old.items outs.new.items (replied number registration last address body (held_by number parts.old.routing.held)) (around (replied number registration last address body (held_by number parts.old.routing.held)))) }
    ensures stopped { IfErr result (λ fault. Stopped D.Disk fault (seen parts.old) disk.old disk.new (around (replied number registration last address body (held_by number parts.old.routing.held)))) }
    ensures keeper { parts.new.keeping.keeper ≡ record parts.old.keeping.keeper { shelf = parts.new.keeping.keeper.shelf } }
{
    let request = match parts.routing.held_by(number) {
        Ok(Some(request)) => request,
        Ok(None) => return refuse(alloc, parts, disk, number, voice_at(&registration), outs),
        Err(NoMemory) => return Err(ActFault::NoMemory),
    };
    if !is_address(address.as_slice(), request.origin) {
        return refuse(alloc, parts, disk, number, voice_at(&registration), outs);
    }
    take_reply(
        alloc,
        parts,
        disk,
        number,
        &registration.service,
        last,
        &request,
        body,
        outs,
    )
}

/// A reply that counts.
fn take_reply<D: Disk>(
    alloc: Global,
    parts: &mut Parts,
    disk: &mut D,
    number: u64,
    service: &Name,
    last: bool,
    request: &Request,
    body: Frames,
    outs: &mut Vec<Out>,
) -> Result<(), ActFault>
    requires short { (told_on parts.old.keeping.keeper.shelf).stored ≡ true → IsShort body }
    requires sound { IsSound D.Disk parts.old.keeping.keeper disk.old }
    ensures acted { OnOk result (Acted D.Disk parts.old disk.old parts.new disk.new outs.old.items outs.new.items (takes_reply number service.now last request.now body) (around (takes_reply number service.now last request.now body))) }
    ensures stopped { IfErr result (λ fault. Stopped D.Disk fault (seen parts.old) disk.old disk.new (around (takes_reply number service.now last request.now body))) }
    ensures keeper { parts.new.keeping.keeper ≡ record parts.old.keeping.keeper { shelf = parts.new.keeping.keeper.shelf } }
{
    match mark(parts, disk, number) {
        Ok(()) => {}
        Err(fault) => return Err(fault),
    }
    match pass_on(alloc, parts, disk, last, request, body, outs) {
        Ok(()) => {}
        Err(fault) => return Err(fault),
    }
    rest(parts, disk, last, number, service)
}

/// Passes a reply on to who asked, or stores it.
fn pass_on<D: Disk>(
    alloc: Global,
    parts: &mut Parts,
    disk: &mut D,
    last: bool,
    request: &Request,
    body: Frames,
    outs: &mut Vec<Out>,
) -> Result<(), ActFault>
    requires short { (told_on parts.old.keeping.keeper.shelf).stored ≡ true → IsShort body }
    requires sound { IsSound D.Disk parts.old.keeping.keeper disk.old }
    ensures acted { OnOk result (Acted D.Disk parts.old disk.old parts.new disk.new outs.old.items outs.new.items (delivers last request.now body) (around (delivers last request.now body))) }
    ensures stopped { IfErr result (λ fault. Stopped D.Disk fault (seen parts.old) disk.old disk.new (around (delivers last request.now body))) }
    ensures keeper { parts.new.keeping.keeper ≡ record parts.old.keeping.keeper { shelf = parts.new.keeping.keeper.shelf } }
{
    match request.origin {
        Origin::Client(client) => { deliver(alloc, parts, disk, client, last, request, body, outs) }
        Origin::Ticket(number) => {
            if last {
                keep(alloc, parts, disk, number, &body, outs)
            } else {
                Ok(())
            }
        }
    }
}

/// Stores the final reply to this ticket.
fn keep<D: Disk>(
    alloc: Global,
    parts: &mut Parts,
    disk: &mut D,
    number: u64,
    body: &Frames,
    outs: &mut Vec<Out>,
) -> Result<(), ActFault>
    requires short { (told_on parts.old.keeping.keeper.shelf).stored ≡ true → IsShort body.now }
    requires sound { IsSound D.Disk parts.old.keeping.keeper disk.old }
    ensures acted { OnOk result (Acted D.Disk parts.old disk.old parts.new disk.new outs.old.items outs.new.items (stores number body.now) (around (stores number body.now))) }
    ensures stopped { IfErr result (λ fault. Stopped D.Disk fault (seen parts.old) disk.old disk.new (around (stores number body.now))) }
    ensures keeper { parts.new.keeping.keeper ≡ record parts.old.keeping.keeper { shelf = parts.new.keeping.keeper.shelf } }
{
    if !parts.keeping.keeper.is_stored() {
        return Ok(());
    }
    parts.keep_reply(alloc, disk, number, body, outs)
}

/// A command that the sender's role doesn't allow: the connection is passed over from now on, and is told so.
fn refuse<D: Disk>(
    alloc: Global,
    parts: &mut Parts,
    disk: &D,
    number: u64,
    voice: Voice,
    outs: &mut Vec<Out>,
) -> Result<(), ActFault>
    requires sound { IsSound D.Disk parts.old.keeping.keeper disk.now }
    ensures acted { OnOk result (Acted D.Disk parts.old disk.now parts.new disk.now outs.old.items outs.new.items (routes (unexpected number voice)) (around (routes (unexpected number voice)))) }
    ensures stopped { IfErr result (λ fault. Stopped D.Disk fault (seen parts.old) disk.now disk.now (around (routes (unexpected number voice)))) }
    ensures keeper { parts.new.keeping.keeper ≡ record parts.old.keeping.keeper { shelf = parts.new.keeping.keeper.shelf } }
{
    match rows::refuse(
        alloc,
        &mut parts.routing,
        number,
        voice,
        &parts.keeping.keeper,
        outs,
    ) {
        Ok(()) => Ok(()),
        Err(NoMemory) => Err(ActFault::NoMemory),
    }
}

/// Answers a request under a name of the broker's own.
fn answer<D: Disk>(
    alloc: Global,
    parts: &mut Parts,
    disk: &D,
    number: u64,
    request: &Request,
    outs: &mut Vec<Out>,
) -> Result<(), ActFault>
    requires sound { IsSound D.Disk parts.old.keeping.keeper disk.now }
    ensures acted { OnOk result (Acted D.Disk parts.old disk.now parts.new disk.now outs.old.items outs.new.items (routes (answers_itself number request.now)) (around (routes (answers_itself number request.now)))) }
    ensures stopped { IfErr result (λ fault. Stopped D.Disk fault (seen parts.old) disk.now disk.now (around (routes (answers_itself number request.now)))) }
    ensures keeper { parts.new.keeping.keeper ≡ record parts.old.keeping.keeper { shelf = parts.new.keeping.keeper.shelf } }
{
    match rows::answer(
        alloc,
        &mut parts.routing,
        number,
        request,
        &parts.keeping.keeper,
        outs,
    ) {
        Ok(()) => Ok(()),
        Err(NoMemory) => Err(ActFault::NoMemory),
    }
}

/// A worker's command of one that is no worker yet.
fn begin<D: Disk>(
    alloc: Global,
    parts: &mut Parts,
    disk: &D,
    number: u64,
    voice: Voice,
    act: WorkerAct,
    outs: &mut Vec<Out>,
) -> Result<(), ActFault>
    requires sound { IsSound D.Disk parts.old.keeping.keeper disk.now }
    ensures acted { OnOk result (Acted D.Disk parts.old disk.now parts.new disk.now outs.old.items outs.new.items (routes (begins number voice act)) (around (routes (begins number voice act)))) }
    ensures stopped { IfErr result (λ fault. Stopped D.Disk fault (seen parts.old) disk.now disk.now (around (routes (begins number voice act)))) }
    ensures keeper { parts.new.keeping.keeper ≡ record parts.old.keeping.keeper { shelf = parts.new.keeping.keeper.shelf } }
{
    match rows::begin(
        alloc,
        &mut parts.routing,
        number,
        voice,
        act,
        &parts.keeping.keeper,
        outs,
    ) {
        Ok(()) => Ok(()),
        Err(NoMemory) => Err(ActFault::NoMemory),
    }
}

/// A worker's command of a client, or in another version.
fn stray<D: Disk>(
    alloc: Global,
    parts: &mut Parts,
    disk: &D,
    number: u64,
    voice: Voice,
    act: &WorkerAct,
    outs: &mut Vec<Out>,
) -> Result<(), ActFault>
    requires sound { IsSound D.Disk parts.old.keeping.keeper disk.now }
    ensures acted { OnOk result (Acted D.Disk parts.old disk.now parts.new disk.now outs.old.items outs.new.items (routes (strays number voice act.now)) (around (routes (strays number voice act.now)))) }
    ensures stopped { IfErr result (λ fault. Stopped D.Disk fault (seen parts.old) disk.now disk.now (around (routes (strays number voice act.now)))) }
    ensures keeper { parts.new.keeping.keeper ≡ record parts.old.keeping.keeper { shelf = parts.new.keeping.keeper.shelf } }
{
    match rows::stray(
        alloc,
        &mut parts.routing,
        number,
        voice,
        act,
        &parts.keeping.keeper,
        outs,
    ) {
        Ok(()) => Ok(()),
        Err(NoMemory) => Err(ActFault::NoMemory),
    }
}

/// Passes a reply on to the client that asked.
fn deliver<D: Disk>(
    alloc: Global,
    parts: &mut Parts,
    disk: &D,
    client: u64,
    last: bool,
    request: &Request,
    body: Frames,
    outs: &mut Vec<Out>,
) -> Result<(), ActFault>
    requires sound { IsSound D.Disk parts.old.keeping.keeper disk.now }
    ensures acted { OnOk result (Acted D.Disk parts.old disk.now parts.new disk.now outs.old.items outs.new.items (routes (delivers_back client last request.now body)) (around (routes (delivers_back client last request.now body)))) }
    ensures stopped { IfErr result (λ fault. Stopped D.Disk fault (seen parts.old) disk.now disk.now (around (routes (delivers_back client last request.now body)))) }
    ensures keeper { parts.new.keeping.keeper ≡ record parts.old.keeping.keeper { shelf = parts.new.keeping.keeper.shelf } }
{
    match rows::deliver(
        alloc,
        &mut parts.routing,
        client,
        last,
        request,
        body,
        &parts.keeping.keeper,
        outs,
    ) {
        Ok(()) => Ok(()),
        Err(NoMemory) => Err(ActFault::NoMemory),
    }
}

/// Queues a client's request, or ends the connection where it is one too many.
fn queue<D: Disk>(
    parts: &mut Parts,
    disk: &D,
    lane: u32,
    number: u64,
    request: Request,
    outs: &mut Vec<Out>,
) -> Result<(), ActFault>
    requires client { is_of_client request.origin ≡ true }
    requires sound { IsSound D.Disk parts.old.keeping.keeper disk.now }
    ensures acted { OnOk result (Acted D.Disk parts.old disk.now parts.new disk.now outs.old.items outs.new.items (routes (queues lane number request)) (around (routes (queues lane number request)))) }
    ensures stopped { IfErr result (λ fault. Stopped D.Disk fault (seen parts.old) disk.now disk.now (around (routes (queues lane number request)))) }
    ensures keeper { parts.new.keeping.keeper ≡ record parts.old.keeping.keeper { shelf = parts.new.keeping.keeper.shelf } }
{
    match parts
        .routing
        .queue(lane, number, request, &parts.keeping.keeper, outs)
    {
        Ok(()) => Ok(()),
        Err(NoMemory) => Err(ActFault::NoMemory),
    }
}

/// The connection is passed over from now on, and is told nothing.
fn depart<D: Disk>(parts: &mut Parts, disk: &D, number: u64) -> Result<(), ActFault>
    requires sound { IsSound D.Disk parts.old.keeping.keeper disk.now }
    ensures acted { OnOk result ((outs : List AnOut) → Acted D.Disk parts.old disk.now parts.new disk.now outs outs (routes (departs number)) (around (routes (departs number)))) }
    ensures stopped { IfErr result (λ fault. Stopped D.Disk fault (seen parts.old) disk.now disk.now (around (routes (departs number)))) }
    ensures keeper { parts.new.keeping.keeper ≡ record parts.old.keeping.keeper { shelf = parts.new.keeping.keeper.shelf } }
{
    match parts.routing.go(number, &parts.keeping.keeper) {
        Ok(()) => Ok(()),
        Err(NoMemory) => Err(ActFault::NoMemory),
    }
}

/// The worker was heard.
fn mark<D: Disk>(parts: &mut Parts, disk: &D, number: u64) -> Result<(), ActFault>
    requires sound { IsSound D.Disk parts.old.keeping.keeper disk.now }
    ensures acted { OnOk result ((outs : List AnOut) → Acted D.Disk parts.old disk.now parts.new disk.now outs outs (hears number) (around (hears number))) }
    ensures stopped { IfErr result (λ fault. Stopped D.Disk fault (seen parts.old) disk.now disk.now (around (hears number))) }
    ensures keeper { parts.new.keeping.keeper ≡ record parts.old.keeping.keeper { shelf = parts.new.keeping.keeper.shelf } }
{
    match parts.routing.mark(number) {
        Ok(()) => Ok(()),
        Err(NoMemory) => Err(ActFault::NoMemory),
    }
}

/// Behind a final reply the worker waits again.
fn rest<D: Disk>(
    parts: &mut Parts,
    disk: &D,
    last: bool,
    number: u64,
    service: &Name,
) -> Result<(), ActFault>
    requires sound { IsSound D.Disk parts.old.keeping.keeper disk.now }
    ensures acted { OnOk result ((outs : List AnOut) → Acted D.Disk parts.old disk.now parts.new disk.now outs outs (routes (rests last number service.now)) (around (routes (rests last number service.now)))) }
    ensures stopped { IfErr result (λ fault. Stopped D.Disk fault (seen parts.old) disk.now disk.now (around (routes (rests last number service.now)))) }
    ensures keeper { parts.new.keeping.keeper ≡ record parts.old.keeping.keeper { shelf = parts.new.keeping.keeper.shelf } }
{
    match rows::rest(&mut parts.routing, last, number, service) {
        Ok(()) => Ok(()),
        Err(NoMemory) => Err(ActFault::NoMemory),
    }
}

fn request_by(number: u64, cmd: ClientCmd) -> Request
    ensures { result ≡ request_of number cmd }
{
    Request {
        origin: Origin::Client(number),
        service: cmd.service,
        version: cmd.version,
        lead: cmd.lead,
        body: cmd.body,
    }
}

fn voice_in(cmd: &WorkerCmd) -> Voice
    ensures { result ≡ MessageStep.voice_in cmd.now }
{
    Voice {
        version: cmd.version,
        lead: cmd.lead,
    }
}

fn voice_at(registration: &Registration) -> Voice
    ensures { result ≡ worker_voice registration.now }
{
    Voice {
        version: registration.version,
        lead: registration.lead,
    }
}

fn is_same_version(version: Version, other: Version) -> bool
    ensures { result ≡ MessageStep.same_version version other }
{
    match (version, other) {
        (Version::One, Version::One) | (Version::Two, Version::Two) => true,
        (Version::One, Version::Two) | (Version::Two, Version::One) => false,
    }
}
