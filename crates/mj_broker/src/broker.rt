ghost use Rattle.std.specs.Prelude.{◌≡◌, ◌↔◌, ◌<◌, ◌≤◌, ◌+◌, ◌^◌, [], true, false, None, is_err, is_some, IsOk, IfOk, OnOk, IfErr, IsErrOf};
ghost use Rattle.mj_base.specs.EventBounds.{IsTakenBy};
ghost use Rattle.mj_base.specs.LawfulLimits.{are_lawful};
ghost use Rattle.mj_base.specs.declared.event.Event.TheVariants as AnEvent;
ghost use Rattle.mj_queue.specs.Settling.{pair};
ghost use Rattle.mj_keeper.specs.Standing.{IsSound, MayPut, told_on};
ghost use Rattle.mj_routing.specs.Staying.{IsQueueOf};
ghost use Rattle.mj_broker.specs.BrokerState.{AreReady, AreSettled, Halted, Happened, IsIdle, Links};
ghost use Rattle.mj_broker.specs.Wires.{AreLimited};
ghost use Rattle.mj_broker.specs.Handling.{Broke, Handled, IsEventFault, begun_keeper, begun_state, limits_of, tickets_on};

use crate::fault::EventFault;
use crate::happen;
use crate::settle::settle;
use crate::wires::{Link, drop_ended, feed};
use mj_base::{Event, Limits, NoMemory, Octets, Out};
use mj_disk::Disk;
use mj_keeper::{Keeper, Shelf};
use mj_routing::Routing;
use mj_store::Store;
use mj_titanic::{ActFault, Keeping, Parts};
use mj_wire::Wire;
use std::alloc::Global;
use std::marker::Model;

/// The broker of one run.
#[derive(Drop)]
pub struct Broker {
    parts: Parts,
    wires: Vec<Link>,
    spent: bool,
}

impl Model for Broker {
    ghost use Rattle.std.specs.Prelude.{◌≡◌, false};
    ghost use Rattle.mj_broker.specs.BrokerState.{IsKept};
    ghost use Rattle.mj_broker.specs.Wires.{AreLimited};
    ghost use Rattle.mj_broker.specs.Handling.{BrokerValue};

    ghost Value = { BrokerValue };

    ghost view = { λ b. record { state = b.parts.routing; keeper = b.parts.keeping.keeper; wires = b.wires.items; spent = b.spent } };

    ghost invariant = { λ b. b.spent ≡ false → IsKept b.parts.keeping.keeper b.parts.routing b.wires.items };
}

impl Broker {
    /// A broker with nobody connected, without a store or over one whose file was opened; what the ids of tickets are
    /// drawn from is the seed.
    pub fn new(
        alloc: Global,
        limits: &Limits,
        seed: [u8; 32],
        store: Option<Store>,
    ) -> Result<Broker, NoMemory>
        requires lawful { is_some store ≡ true → are_lawful limits.now ≡ true }
        ensures state { IfOk result (λ broker. broker.state ≡ begun_state limits.now store) }
        ensures keeper { IfOk result (λ broker. broker.keeper ≡ begun_keeper limits.now seed store) }
        ensures wires { IfOk result (λ broker. broker.wires ≡ []) }
        ensures fresh { IfOk result (λ broker. broker.spent ≡ false) }
    {
        let mut routing = Routing::new(alloc, limits);
        let shelf = match store {
            None => Shelf::Absent,
            Some(store) => {
                routing.queue_tickets(alloc, &store)?;
                Shelf::Open(store)
            }
        };
        let keeper = Keeper {
            limits: *limits,
            seed,
            shelf,
        };
        Ok(Broker {
            parts: Parts {
                routing,
                keeping: Keeping { keeper, acts: 0 },
            },
            wires: Vec::new(alloc),
            spent: false,
        })
    }

    /// Handles an event, and appends what is to be done to the lanes. After a fault the broker is spent, and
    /// `outs` is given up.
    pub fn event<D: Disk>(
        &mut self,
        alloc: Global,
        event: Event,
        disk: &mut D,
        outs: &mut Vec<Out>,
    ) -> Result<(), EventFault>
        requires within { IsTakenBy (limits_of self.old).lanes event }

        // So many connections were never opened.
        requires few { self.old.state.next < 2 ^ 63 }
        requires sound { self.old.spent ≡ false → IsSound D.Disk self.old.keeper disk.old }
        ensures handled { OnOk result (Handled D.Disk self.old disk.old self.new disk.new event outs.old.items outs.new.items) }
        ensures broke { IfErr result (λ fault. Broke D.Disk fault self.old disk.old disk.new event) }
        ensures kind { IfErr result IsEventFault }

        // What was added may be handed out.
        ensures put { OnOk result (MayPut D.Disk disk.new) }
        ensures sound { OnOk result (IsSound D.Disk self.new.keeper disk.new) }
        ensures limits { limits_of self.new ≡ limits_of self.old }

        // An earlier fault, and nothing else, is answered by `Spent`.
        ensures spent { IsErrOf result EventFault.Spent ↔ (self.old.spent ≡ true) }
        ensures after { self.new.spent ≡ is_err result }

        // Each connection has the reader of its stream, no other has one, and no queued request has a waiting worker.
        ensures settled { OnOk result (AreSettled self.new.state self.new.wires) }

        // Such an event takes no memory.
        ensures idle { self.old.spent ≡ false → IsIdle (told_on self.old.keeper.shelf) self.old.state event → IsOk result }

        // An event opens one connection at most.
        ensures next { OnOk result (self.new.state.next ≤ self.old.state.next + 1) }
    {
        if self.spent {
            return Err(EventFault::Spent);
        }
        self.spent = true;
        self.parts.keeping.acts = 0;
        match handle(alloc, &mut self.parts, &mut self.wires, event, disk, outs) {
            Ok(()) => {}
            Err(ActFault::NoMemory) => return Err(EventFault::NoMemory),
            Err(ActFault::Refused(fault)) => return Err(EventFault::Refused(fault)),
        }
        drop_ended(&mut self.wires, &self.parts.routing);
        self.spent = false;
        Ok(())
    }
}

fn handle<D: Disk>(
    alloc: Global,
    parts: &mut Parts,
    wires: &mut Vec<Link>,
    event: Event,
    disk: &mut D,
    outs: &mut Vec<Out>,
) -> Result<(), ActFault>
    requires within { IsTakenBy parts.old.keeping.keeper.limits.lanes event }
    requires few { parts.old.routing.next < 2 ^ 63 }
    requires ready { AreReady parts.old.routing.connections wires.old.items }
    requires settled { pair parts.old.routing.waiting parts.old.routing.queue ≡ None }
    requires limited { AreLimited parts.old.keeping.keeper.limits wires.old.items }
    requires lawful { (told_on parts.old.keeping.keeper.shelf).stored ≡ true → are_lawful parts.old.keeping.keeper.limits ≡ true }
    requires queue { IsQueueOf parts.old.keeping.keeper.shelf parts.old.routing.queue }
    requires sound { IsSound D.Disk parts.old.keeping.keeper disk.old }
    ensures happened { OnOk result (Happened D.Disk event parts.old disk.old parts.new disk.new wires.old.items wires.new.items outs.old.items outs.new.items) }
    ensures halted { IfErr result (λ fault. Halted D.Disk fault event parts.old disk.old disk.new wires.old.items) }
    ensures sound { OnOk result (IsSound D.Disk parts.new.keeping.keeper disk.new) }
    ensures queue { OnOk result (IsQueueOf parts.new.keeping.keeper.shelf parts.new.routing.queue) }
    ensures ready { OnOk result (AreReady parts.new.routing.connections wires.new.items) }
    ensures limited { OnOk result (AreLimited parts.old.keeping.keeper.limits wires.new.items) }
    ensures settled { OnOk result (pair parts.new.routing.waiting parts.new.routing.queue ≡ None) }
    ensures idle { IsIdle (told_on parts.old.keeping.keeper.shelf) parts.old.routing event → IsOk result }
    ensures next { OnOk result (parts.new.routing.next ≤ parts.old.routing.next + 1) }
    ensures keeper { parts.new.keeping.keeper ≡ record parts.old.keeping.keeper { shelf = parts.new.keeping.keeper.shelf } }
{
    match event {
        Event::Open(lane) => open(alloc, parts, wires, disk, lane, outs),
        Event::Bytes(lane, piece) => take_piece(alloc, parts, wires, disk, lane, &piece, outs),
        Event::Sent(lane) => happen::report(alloc, parts, disk, lane, outs),
        Event::Close(lane) => happen::close(alloc, parts, disk, lane, outs),
        Event::Tick(ms) => happen::pass(alloc, parts, disk, ms, outs),
        Event::Stop => Ok(()),
    }
}

/// A new connection on the lane, with the reader of its stream.
fn open<D: Disk>(
    alloc: Global,
    parts: &mut Parts,
    wires: &mut Vec<Link>,
    disk: &mut D,
    lane: u32,
    outs: &mut Vec<Out>,
) -> Result<(), ActFault>
    requires few { parts.old.routing.next < 2 ^ 63 }
    requires ready { AreReady parts.old.routing.connections wires.old.items }
    requires limited { AreLimited parts.old.keeping.keeper.limits wires.old.items }
    requires queue { IsQueueOf parts.old.keeping.keeper.shelf parts.old.routing.queue }
    requires sound { IsSound D.Disk parts.old.keeping.keeper disk.old }
    ensures happened { OnOk result (Happened D.Disk (AnEvent.Open lane) parts.old disk.old parts.new disk.new wires.old.items wires.new.items outs.old.items outs.new.items) }
    ensures halted { IfErr result (λ fault. Halted D.Disk fault (AnEvent.Open lane) parts.old disk.old disk.new wires.old.items) }
    ensures sound { OnOk result (IsSound D.Disk parts.new.keeping.keeper disk.new) }
    ensures queue { OnOk result (IsQueueOf parts.new.keeping.keeper.shelf parts.new.routing.queue) }
    ensures ready { OnOk result (AreReady parts.new.routing.connections wires.new.items) }
    ensures limited { OnOk result (AreLimited parts.old.keeping.keeper.limits wires.new.items) }
    ensures settled { OnOk result (pair parts.new.routing.waiting parts.new.routing.queue ≡ None) }
    ensures next { OnOk result (parts.new.routing.next ≤ parts.old.routing.next + 1) }
    ensures keeper { parts.new.keeping.keeper ≡ record parts.old.keeping.keeper { shelf = parts.new.keeping.keeper.shelf } }
{
    match link(alloc, &parts.keeping.keeper.limits, &parts.routing, wires) {
        Ok(()) => {}
        Err(NoMemory) => return Err(ActFault::NoMemory),
    }
    happen::open(alloc, parts, disk, lane, outs)
}

/// The reader of the connection that opens next.
fn link(
    alloc: Global,
    limits: &Limits,
    routing: &Routing,
    wires: &mut Vec<Link>,
) -> Result<(), NoMemory>
    ensures { OnOk result (Links limits.now routing.now.next wires.old.items wires.new.items) }
{
    let link = Link {
        number: routing.next_number(),
        wire: Wire::new(alloc, limits)?,
    };
    wires.insert(0, link)?;
    Ok(())
}

/// The next piece of the stream of the lane's connection; without one it is passed over.
fn take_piece<D: Disk>(
    alloc: Global,
    parts: &mut Parts,
    wires: &mut Vec<Link>,
    disk: &mut D,
    lane: u32,
    piece: &Octets,
    outs: &mut Vec<Out>,
) -> Result<(), ActFault>
    requires ready { AreReady parts.old.routing.connections wires.old.items }
    requires limited { AreLimited parts.old.keeping.keeper.limits wires.old.items }
    requires lawful { (told_on parts.old.keeping.keeper.shelf).stored ≡ true → are_lawful parts.old.keeping.keeper.limits ≡ true }
    requires queue { IsQueueOf parts.old.keeping.keeper.shelf parts.old.routing.queue }
    requires sound { IsSound D.Disk parts.old.keeping.keeper disk.old }
    ensures happened { OnOk result (Happened D.Disk (AnEvent.Bytes lane piece.now) parts.old disk.old parts.new disk.new wires.old.items wires.new.items outs.old.items outs.new.items) }
    ensures halted { IfErr result (λ fault. Halted D.Disk fault (AnEvent.Bytes lane piece.now) parts.old disk.old disk.new wires.old.items) }
    ensures sound { OnOk result (IsSound D.Disk parts.new.keeping.keeper disk.new) }
    ensures queue { OnOk result (IsQueueOf parts.new.keeping.keeper.shelf parts.new.routing.queue) }
    ensures ready { OnOk result (AreReady parts.new.routing.connections wires.new.items) }
    ensures limited { OnOk result (AreLimited parts.old.keeping.keeper.limits wires.new.items) }
    ensures settled { OnOk result (pair parts.new.routing.waiting parts.new.routing.queue ≡ None) }
    ensures next { OnOk result (parts.new.routing.next ≤ parts.old.routing.next + 1) }
    ensures keeper { parts.new.keeping.keeper ≡ record parts.old.keeping.keeper { shelf = parts.new.keeping.keeper.shelf } }
{
    let Some(number) = parts.routing.number_on(lane) else {
        return settle(alloc, parts, disk, outs);
    };
    match feed(alloc, wires, number, piece.as_slice()) {
        Ok(items) => happen::gain(alloc, parts, disk, lane, items.as_slice(), outs),
        Err(NoMemory) => Err(ActFault::NoMemory),
    }
}
