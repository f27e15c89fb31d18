//! Sending requests to workers, as long as a queued one has a waiting worker (the guide, chapter 4).
ghost use Rattle.std.specs.Prelude.{◌≡◌, ◌≢◌, ◌+◌, ◌<◌, true, false, None, Some, length, is_some, option_map, IsOk, OnOk, IfErr};
ghost use Rattle.mj_queue.specs.Offers.{offer_of};
ghost use Rattle.mj_queue.specs.Settling.{pair};
ghost use Rattle.mj_queue.specs.declared.request.Origin.TheVariants as origins;
ghost use Rattle.mj_tickets.specs.Fold.{ticket_of};
ghost use Rattle.mj_machine.specs.Pairing.{settles};
ghost use Rattle.mj_keeper.specs.Standing.{IsOpenWith, IsSound};
ghost use Rattle.mj_routing.specs.Staying.{IsQueueOf};
ghost use Rattle.mj_titanic.specs.Acting.{Stopped, around, seen};
ghost use Rattle.mj_titanic.specs.Services.{next_pair};
ghost use Rattle.mj_broker.specs.Acting.{Acted, IsNotOpen, IsOfClient, as_it_is};

use mj_base::{Frames, NoMemory, Out};
use mj_disk::Disk;
use mj_keeper::{Keeper, Shelf};
use mj_queue::{Offer, Origin};
use mj_titanic::{ActFault, Parts};
use std::alloc::Global;

/// Sends requests until no queued one has a waiting worker. Where none has, no memory is taken.
pub fn settle<D: Disk>(
    alloc: Global,
    parts: &mut Parts,
    disk: &mut D,
    outs: &mut Vec<Out>,
) -> Result<(), ActFault>
    requires queue { IsQueueOf parts.old.keeping.keeper.shelf parts.old.routing.queue }
    requires sound { IsSound D.Disk parts.old.keeping.keeper disk.old }
    ensures acted { OnOk result (Acted D.Disk parts.old disk.old parts.new disk.new outs.old.items outs.new.items settles as_it_is) }
    ensures stopped { IfErr result (λ fault. Stopped D.Disk fault (seen parts.old) disk.old disk.new as_it_is) }
    ensures settled { OnOk result (pair parts.new.routing.waiting parts.new.routing.queue ≡ None) }
    ensures idle { pair parts.old.routing.waiting parts.old.routing.queue ≡ None → IsOk result }
    ensures keeper { parts.new.keeping.keeper ≡ record parts.old.keeping.keeper { shelf = parts.new.keeping.keeper.shelf } }
{
    while let Some(offer) = parts.routing.offer() {
        match send_next(alloc, parts, disk, &offer, outs) {
            Ok(()) => {}
            Err(fault) => return Err(fault),
        }
    }
    Ok(())
}

/// Sends the offered request to its worker.
fn send_next<D: Disk>(
    alloc: Global,
    parts: &mut Parts,
    disk: &mut D,
    offer: &Offer,
    outs: &mut Vec<Out>,
) -> Result<(), ActFault>
    requires offer { option_map offer_of (pair parts.old.routing.waiting parts.old.routing.queue) ≡ Some offer.now }
    requires queue { IsQueueOf parts.old.keeping.keeper.shelf parts.old.routing.queue }
    requires sound { IsSound D.Disk parts.old.keeping.keeper disk.old }
    ensures acted { OnOk result (Acted D.Disk parts.old disk.old parts.new disk.new outs.old.items outs.new.items next_pair (around next_pair)) }
    ensures stopped { IfErr result (λ fault. Stopped D.Disk fault (seen parts.old) disk.old disk.new (around next_pair)) }
    ensures fewer { OnOk result (length parts.new.routing.waiting + length parts.new.routing.queue < length parts.old.routing.waiting + length parts.old.routing.queue) }
    ensures keeper { parts.new.keeping.keeper ≡ record parts.old.keeping.keeper { shelf = parts.new.keeping.keeper.shelf } }
{
    match offer.origin {
        Origin::Client(_client) => send_queued(alloc, parts, disk, offer, outs),
        Origin::Ticket(number) => {
            if is_open(&parts.keeping.keeper, number) {
                parts.dispatch_ticket(alloc, disk, number, offer.worker, &offer.service, outs)
            } else {
                send_empty(alloc, parts, disk, number, offer, outs)
            }
        }
    }
}

/// Whether the file is open and this is the number of an open ticket.
fn is_open(keeper: &Keeper, number: u64) -> bool
    ensures open { result ≡ true → IsOpenWith (λ held. ticket_of number held.index ≢ None) keeper.now.shelf }
    ensures not { result ≡ false → IsNotOpen number keeper.now.shelf }
{
    match &keeper.shelf {
        Shelf::Absent => false,
        Shelf::Open(store) => store.is_open(number),
        Shelf::Shut(_end) => false,
    }
}

/// A client's request, with the body that was queued.
fn send_queued<D: Disk>(
    alloc: Global,
    parts: &mut Parts,
    disk: &D,
    offer: &Offer,
    outs: &mut Vec<Out>,
) -> Result<(), ActFault>
    requires offer { option_map offer_of (pair parts.old.routing.waiting parts.old.routing.queue) ≡ Some offer.now }
    requires client { IsOfClient offer.now.origin }
    requires sound { IsSound D.Disk parts.old.keeping.keeper disk.now }
    ensures acted { OnOk result (Acted D.Disk parts.old disk.now parts.new disk.now outs.old.items outs.new.items next_pair (around next_pair)) }
    ensures stopped { IfErr result (λ fault. Stopped D.Disk fault (seen parts.old) disk.now disk.now (around next_pair)) }
    ensures fewer { OnOk result (length parts.new.routing.waiting + length parts.new.routing.queue < length parts.old.routing.waiting + length parts.old.routing.queue) }
    ensures keeper { parts.new.keeping.keeper ≡ record parts.old.keeping.keeper { shelf = parts.new.keeping.keeper.shelf } }
{
    match parts.routing.dispatch(alloc, &parts.keeping.keeper, outs) {
        Ok(()) => Ok(()),
        Err(NoMemory) => Err(ActFault::NoMemory),
    }
}

/// The request of a ticket that isn't open, whose body is empty. Its reading counts as an act.
fn send_empty<D: Disk>(
    alloc: Global,
    parts: &mut Parts,
    disk: &D,
    number: u64,
    offer: &Offer,
    outs: &mut Vec<Out>,
) -> Result<(), ActFault>
    requires offer { option_map offer_of (pair parts.old.routing.waiting parts.old.routing.queue) ≡ Some offer.now }
    requires ticket { offer.now.origin ≡ origins.Ticket number }
    requires queue { IsQueueOf parts.old.keeping.keeper.shelf parts.old.routing.queue }
    requires open { IsNotOpen number parts.old.keeping.keeper.shelf }
    requires sound { IsSound D.Disk parts.old.keeping.keeper disk.now }
    ensures acted { OnOk result (Acted D.Disk parts.old disk.now parts.new disk.now outs.old.items outs.new.items next_pair (around next_pair)) }
    ensures stopped { IfErr result (λ fault. Stopped D.Disk fault (seen parts.old) disk.now disk.now (around next_pair)) }
    ensures fewer { OnOk result (length parts.new.routing.waiting + length parts.new.routing.queue < length parts.old.routing.waiting + length parts.old.routing.queue) }
    ensures keeper { parts.new.keeping.keeper ≡ record parts.old.keeping.keeper { shelf = parts.new.keeping.keeper.shelf } }
{
    let Some(next) = parts.keeping.acts.checked_add(1) else {
        return Err(ActFault::NoMemory);
    };
    parts.keeping.acts = next;
    match parts
        .routing
        .hand(alloc, Frames::new(alloc), &parts.keeping.keeper, outs)
    {
        Ok(()) => Ok(()),
        Err(NoMemory) => Err(ActFault::NoMemory),
    }
}
