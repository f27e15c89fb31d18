//! The lanes, by number.
ghost use Rattle.std.specs.Prelude.{◌≡◌, ◌<◌, Some, None, ℕ, IfOk, length, is_some};
ghost use Rattle.mj_audit.specs.Slots.{KeepsOthers, slot_of};

use super::Lane;
use mj_base::NoMemory;
use std::alloc::Global;

/// The number of lanes.
const LANES: usize = 64;

pub(crate) fn no_lanes(alloc: Global) -> Result<Vec<Option<Lane>>, NoMemory>
    ensures many { IfOk result (λ lanes. length lanes.items ≡ 64) }
    ensures none { IfOk result (λ lanes. (lane : ℕ) → slot_of lanes.items lane ≡ None) }
{
    let mut lanes = Vec::new(alloc);
    for _lane in 0..LANES {
        lanes.push(None)?;
    }
    Ok(lanes)
}

pub(crate) fn is_open(lanes: &[Option<Lane>], lane: u32) -> bool
    ensures { result ≡ is_some (slot_of lanes.now lane) }
{
    match lanes.get(lane as usize) {
        Some(slot) => slot.is_some(),
        None => false,
    }
}

/// Takes the connection from its lane.
pub(crate) fn take_out(lanes: &mut Vec<Option<Lane>>, lane: u32) -> Option<Lane>
    ensures taken { result ≡ slot_of lanes.old.items lane }
    ensures left { slot_of lanes.new.items lane ≡ None }
    ensures others { KeepsOthers lane lanes.old.items lanes.new.items }
    ensures many { length lanes.new.items ≡ length lanes.old.items }
{
    match lanes.get_mut(lane as usize) {
        Some(slot) => slot.take(),
        None => None,
    }
}

/// Puts a connection on a lane.
pub(crate) fn put(lanes: &mut Vec<Option<Lane>>, lane: u32, connection: Lane)
    ensures here { lane < length lanes.old.items → slot_of lanes.new.items lane ≡ Some connection }
    ensures others { KeepsOthers lane lanes.old.items lanes.new.items }
    ensures many { length lanes.new.items ≡ length lanes.old.items }
{
    if let Some(slot) = lanes.get_mut(lane as usize) {
        *slot = Some(connection);
    }
}
