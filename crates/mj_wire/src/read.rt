ghost use Rattle.std.specs.Prelude.{◌≡◌, ◌+◌, ◌*◌, ◌≤◌, ◌++◌, ◌∷◌, [], length, drop, IfOk, OnOk, OnErr};
ghost use Rattle.mj_wire.specs.KeptByWire.{weight_of_items, reserved, IsLight, Weighs};
ghost use Rattle.mj_wire.specs.NextReading;
ghost use Rattle.mj_wire.specs.StreamItems.{items_from, step_of, place_after, items_of, passed, IsWithin};
ghost use Rattle.mj_wire.specs.WireState.{AppendsFront, IsReadOut};

use super::WireItem;
use super::next::{Next, next_of};
use super::place::{Place, Stage};
use bytes::BytesMut;
use mj_base::{Frames, Limits, NoMemory};
use std::alloc::Global;
use std::mem;

/// Reads on with this piece behind the rest, and keeps as the new rest what isn't whole. After a fault nothing
/// is read or kept.
pub fn take_piece(
    alloc: Global,
    limits: &Limits,
    place: &mut Place,
    rest: &mut BytesMut,
    piece: &[u8],
    items: &mut Vec<WireItem>,
) -> Result<(), NoMemory>
    ensures read { OnOk result (IsReadOut limits.now place.old (rest.old.items ++ piece.now) items.old.items
        place.new rest.new.items items.new.items) }
    ensures part { OnErr result (AppendsFront items.old.items
        (items_from limits.now place.old (rest.old.items ++ piece.now)) items.new.items) }
    ensures light { OnOk result (IsLight limits.now place.old rest.old.items → IsLight limits.now place.new rest.new.items) }
    ensures kept { OnOk result (weight_of_items items.new.items + reserved place.new rest.new.items
        ≤ weight_of_items items.old.items + reserved place.old rest.old.items + 17 * length piece.now) }
{
    if has_ended(place.stage) {
        return Ok(());
    }
    rest.extend_from_slice(piece)?;
    let used = read_all(alloc, limits, place, rest.as_slice(), items)?;
    if has_ended(place.stage) {
        *rest = BytesMut::new(alloc);
    } else {
        rest.advance(used);
    }
    Ok(())
}

fn has_ended(stage: Stage) -> bool
    ensures { result ≡ NextReading.has_ended stage }
{
    match stage {
        Stage::Ended => true,
        _ => false,
    }
}

/// Reads all that is whole, and says how many bytes that takes.
fn read_all(
    alloc: Global,
    limits: &Limits,
    place: &mut Place,
    octets: &[u8],
    items: &mut Vec<WireItem>,
) -> Result<usize, NoMemory>
    ensures within { IfOk result (λ used. used ≤ length octets.now) }
    ensures read { IfOk result (λ used. IsReadOut limits.now place.old octets.now items.old.items
        place.new (drop used octets.now) items.new.items) }
    ensures part { OnErr result (AppendsFront items.old.items (items_from limits.now place.old octets.now)
        items.new.items) }
    ensures waits { IfOk result (λ used. NextReading.next_of limits.now place.new (drop used octets.now) ≡ Next.Wait) }
    ensures weighs { IfOk result (λ used. Weighs limits.now place.old items.old.items place.new items.new.items used) }
{
    let mut used = 0;
    loop {
        let rest = octets.split_at(used).1;
        let next = next_of(limits, place, rest);
        match take_next(alloc, next, rest, place, items)? {
            None => return Ok(used),
            Some(step) => used += step,
        }
    }
}

/// Takes what stands next, and says how many bytes it has; None where reading stops.
fn take_next(
    alloc: Global,
    next: Next,
    octets: &[u8],
    place: &mut Place,
    items: &mut Vec<WireItem>,
) -> Result<Option<usize>, NoMemory>
    requires { IsWithin next octets.now }
    ensures step { IfOk result (λ step. step ≡ step_of next) }
    ensures place { OnOk result (place.new ≡ place_after place.old octets.now next) }
    ensures items { OnOk result (items.new.items ≡ items.old.items ++ items_of place.old octets.now next) }
    ensures err { OnErr result (items.new.items ≡ items.old.items) }
{
    match next {
        Next::Wait => Ok(None),
        Next::Fault(reason, at) => {
            items.push(WireItem::Ended(reason, place.at.saturating_add(at)))?;
            place.stage = Stage::Ended;
            place.group = Frames::new(alloc);
            Ok(None)
        }
        Next::Greeting => {
            items.push(WireItem::Accepted)?;
            Ok(Some(pass(place, Stage::Handshake, 64)))
        }
        Next::Ready(kind, end) => {
            items.push(WireItem::Ready(kind))?;
            Ok(Some(pass(place, Stage::Open, end)))
        }
        Next::Command(end) => Ok(Some(pass(place, Stage::Open, end))),
        Next::Frame(more, start, end) => {
            place.group.push(&octets[start..end])?;
            if !more {
                finish(alloc, place, items)?;
            }
            Ok(Some(pass(place, Stage::Open, end)))
        }
    }
}

/// Goes on behind these bytes.
fn pass(place: &mut Place, stage: Stage, end: usize) -> usize
    ensures value { result ≡ end }
    ensures place { place.new ≡ passed place.old stage end place.old.group }
{
    place.stage = stage;
    place.at = place.at.saturating_add(end as u64);
    end
}

/// Gives the message that is whole now.
fn finish(alloc: Global, place: &mut Place, items: &mut Vec<WireItem>) -> Result<(), NoMemory>
    ensures items { OnOk result (items.new.items ≡ items.old.items ++ WireItem.Message place.old.group ∷ []) }
    ensures place { OnOk result (place.new ≡ record place.old { group = [] }) }
    ensures err { OnErr result (items.new.items ≡ items.old.items) }
{
    let message = mem::replace(&mut place.group, Frames::new(alloc));
    items.push(WireItem::Message(message))?;
    Ok(())
}
