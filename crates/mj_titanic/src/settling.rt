//! The dispatch of tickets.
ghost use Rattle.std.specs.Prelude.{◌≡◌, ◌≢◌, true, None, Some, option_map, OnOk, IfErr, ◌+◌, ◌<◌, length};
ghost use Rattle.mj_queue.specs.Offers.{offer_of};
ghost use Rattle.mj_queue.specs.Settling.{pair};
ghost use Rattle.mj_queue.specs.declared.request.Origin.TheVariants as origins;
ghost use Rattle.mj_tickets.specs.Fold.{ticket_of};
ghost use Rattle.mj_keeper.specs.Standing.{IsOpenWith, IsSound};
ghost use Rattle.mj_titanic.specs.Acting.{Did, Stopped, around, seen};
ghost use Rattle.mj_titanic.specs.Services.{next_pair};
ghost use Rattle.mj_titanic.specs.Onward.{Onward, SameKeeper};

use crate::fault::ActFault;
use crate::parts::Parts;
use mj_base::{Name, NoMemory, Out};
use mj_disk::Disk;
use std::alloc::Global;

impl Parts {
    /// Reads the body of the ticket that is offered, and sends its request to the worker; where the reading fails the
    /// worker waits last.
    pub fn dispatch_ticket<D: Disk>(
        &mut self,
        alloc: Global,
        disk: &mut D,
        ticket: u64,
        worker: u64,
        service: &Name,
        outs: &mut Vec<Out>,
    ) -> Result<(), ActFault>
        requires offer { option_map offer_of (pair self.old.routing.waiting self.old.routing.queue) ≡ Some (record { worker = worker; service = service.now; origin = origins.Ticket ticket }) }
        requires open { IsOpenWith (λ held. ticket_of ticket held.index ≢ None) self.old.keeping.keeper.shelf }
        requires sound { IsSound D.Disk self.old.keeping.keeper disk.old }
        ensures done { OnOk result (Did D.Disk (seen self.old) disk.old (seen self.new) disk.new outs.old.items outs.new.items next_pair (around next_pair)) }
        ensures stopped { IfErr result (λ fault. Stopped D.Disk fault (seen self.old) disk.old disk.new (around next_pair)) }
        ensures sound { OnOk result (IsSound D.Disk self.new.keeping.keeper disk.new) }
        ensures stays { OnOk result (Onward self.old self.new) }
        ensures keeper { SameKeeper self.old.keeping.keeper self.new.keeping.keeper }
        ensures fewer { OnOk result (length self.new.routing.waiting + length self.new.routing.queue < length self.old.routing.waiting + length self.old.routing.queue) }
    {
        match self.keeping.read_open(alloc, disk, ticket, outs) {
            Ok(Some(body)) => match self.routing.hand(alloc, body, &self.keeping.keeper, outs) {
                Ok(()) => Ok(()),
                Err(NoMemory) => Err(ActFault::NoMemory),
            },
            Ok(None) => {
                self.routing.drop_tickets();
                match self.routing.wait(worker, service) {
                    Ok(()) => Ok(()),
                    Err(NoMemory) => Err(ActFault::NoMemory),
                }
            }
            Err(fault) => Err(fault),
        }
    }
}
