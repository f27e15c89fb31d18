//! The readers of the connections' streams, looked up by the connection's number.
ghost use Rattle.std.specs.Prelude.{◌≡◌, ◌==◌, ℕ, List, [], true, position, None, IsSome, IfOk, OnOk};
ghost use Rattle.mj_base.specs.declared.limits.Limits.{Limits as ALimits};
ghost use Rattle.mj_wire.specs.SmallItems.{AreSmallItems};
ghost use Rattle.mj_wire.specs.StreamItems.{gained};
ghost use Rattle.mj_wire.specs.WireState.{State as WireValue};
ghost use Rattle.mj_machine.specs.MachineState.{Stream};
ghost use Rattle.mj_machine.specs.EventStep.{fed, stream_of};
ghost use Rattle.mj_broker.specs.Wires.{AreFresh, AreLimited, IsLinkAt, SameLimits, SameNumbers, WiresStand, kept_links, wire_of};

use mj_base::NoMemory;
use mj_routing::Routing;
use mj_wire::{Wire, WireItem};
use std::alloc::Global;

/// A connection's number, and the reader of its stream.
#[derive(Drop)]
pub struct Link {
    pub number: u64,
    pub wire: Wire,
}

/// The place of the first reader of this number.
fn place_of(links: &[Link], number: u64) -> Option<usize>
    ensures { IsLinkAt number links.now result }
{
    first_place(links, number)
}

fn first_place(links: &[Link], number: u64) -> Option<usize>
    ensures { result ≡ position (λ l. l.number == number) links.now }
{
    links.iter().position(|link| link.number == number)
}

/// Feeds the reader of this number, and gives the items that its stream gains.
pub fn feed(
    alloc: Global,
    links: &mut Vec<Link>,
    number: u64,
    piece: &[u8],
) -> Result<Vec<WireItem>, NoMemory>
    requires there { IsSome (wire_of number links.old.items) }
    requires fresh { AreFresh links.old.items }
    ensures items { IfOk result (λ items. (limits : ALimits) (streams : List Stream) → WiresStand limits links.old.items streams
        → items.items ≡ gained limits (stream_of number streams) piece.now) }
    ensures stand { OnOk result ((limits : ALimits) (streams : List Stream) → WiresStand limits links.old.items streams
        → WiresStand limits links.new.items (fed number piece.now streams)) }
    ensures fresh { OnOk result (AreFresh links.new.items) }
    ensures limits { OnOk result (SameLimits links.old.items links.new.items) }
    ensures small { IfOk result (λ items. (limits : ALimits) → AreLimited limits links.old.items → AreSmallItems limits items.items) }
    ensures numbers { OnOk result (SameNumbers links.old.items links.new.items) }
{
    let at = place_of(links, number).unwrap();
    let mut items = Vec::new(alloc);
    links[at].wire.feed(alloc, piece, &mut items)?;
    Ok(items)
}

/// Takes out the readers of connections that are there no more.
pub fn drop_ended(links: &mut Vec<Link>, routing: &Routing)
    ensures { links.new.items ≡ kept_links routing.now.connections links.old.items }
{
    if !are_there(links.as_slice(), routing) {
        links.retain(|link| routing.has(link.number));
    }
}

/// Whether each reader's connection is there. The readers stand in the order in which the connections opened, the
/// last one first, so that each is looked for where its connection stands.
fn are_there(links: &[Link], routing: &Routing) -> bool
    ensures { result ≡ true → kept_links routing.now.connections links.now ≡ links.now }
{
    let count = routing.count();
    for i in 0..links.len() {
        let place = count.saturating_sub(i).saturating_sub(1);
        if !routing.has_near(place, links[i].number) {
            return false;
        }
    }
    true
}
