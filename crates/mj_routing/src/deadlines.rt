//! When the leases of workers end.
ghost use Rattle.std.specs.Prelude.{◌≡◌, ◌<◌, List, None};
ghost use Rattle.mj_base.specs.declared.limits.Limits.{Limits as ALimits};
ghost use Rattle.mj_machine.specs.TickStep;
ghost use Rattle.mj_machine.specs.declared.connection.Connection.{Connection as AConnection};
ghost use Rattle.mj_machine.specs.declared.held.Held.{Held as AHeld};
ghost use Rattle.mj_routing.specs.Deadlines.{LeasesStand, SameBut, deadline_on};
ghost use Rattle.mj_routing.specs.Holding.{held_in};

use crate::connections::Connections;
use crate::held::is_holding;
use crate::leases::Leases;
use indexmap::IndexMap;
use mj_base::Limits;
use mj_queue::Request;

/// Sets the deadline of this number anew, after it alone has changed.
pub fn renew(
    leases: &mut Leases,
    limits: &Limits,
    connections: &Connections,
    held: &IndexMap<u64, Request>,
    number: u64,
)
    requires { 0 < leases.old.spare }
    ensures { (before : List AConnection) (held_before : List AHeld) → LeasesStand limits.now before held_before leases.old.leases
        → SameBut number limits.now before held_before connections.now (held_in held.now)
        → LeasesStand limits.now connections.now (held_in held.now) leases.new.leases }
{
    match connections.mark_of(number) {
        None => leases.remove(number),
        Some(mark) => leases.put(number, mark.saturating_add(lease_of(limits, held, number))),
    }
}

/// Takes out the deadline of this number, which has none any more.
pub fn forget(leases: &mut Leases, number: u64)
    ensures { (limits : ALimits) (before now : List AConnection) (held_before held_now : List AHeld) → LeasesStand limits before held_before leases.old.leases
        → SameBut number limits before held_before now held_now → deadline_on limits now held_now number ≡ None
        → LeasesStand limits now held_now leases.new.leases }
{
    leases.remove(number);
}

/// How long the lease of this worker is.
fn lease_of(limits: &Limits, held: &IndexMap<u64, Request>, number: u64) -> u64
    ensures { result ≡ TickStep.lease_of limits.now (held_in held.now) number }
{
    if is_holding(held, number) {
        limits.busy_lease
    } else {
        limits.lease
    }
}
