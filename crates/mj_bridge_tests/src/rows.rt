ghost use Rattle.std.specs.Prelude.{◌≤◌};

use super::texts::{
    ANSWERS, ANSWERS_OTHER, ASKS, ASKS_OTHER, DEALER, LEAVES, OTHER, REGISTERS, REPLY, REQ,
    REQUEST, ROUTER, Wanted, are, piece,
};
use mj_base::{LinkEvent, Name};
use mj_bridge::{Bridge, BridgeActs};
use std::alloc::Global;
use std::test::Fail;

/// A call of a bridge.
#[derive(Clone, Copy)]
enum Turn {
    /// The bridge is started.
    Start,
    /// The near link gave these bytes; or it ended.
    Near(&'static [&'static [u8]]),
    NearEnd,
    /// The far link gave these bytes; or nothing for a while.
    Far(&'static [&'static [u8]]),
    FarIdle,
}

/// A call and its acts.
type Row = (Turn, Wanted);

const STARTS: Row = (Turn::Start, &[("near", "write", DEALER)]);

/// The REQUEST is asked far on a new link.
const ASKED: Row = (
    Turn::Near(&[ROUTER, REQUEST]),
    &[("near", "write", REGISTERS), ("far", "write", REQ)],
);

/// The near broker is gone, and the bridge comes to it anew.
const COMES_ANEW: Row = (
    Turn::NearEnd,
    &[("near", "reopen", b""), ("near", "write", DEALER)],
);

/// One REQUEST, and the count is full.
const COUNTED: [Row; 4] = [
    STARTS,
    ASKED,
    (
        Turn::Far(&[ROUTER, REPLY]),
        &[
            ("far", "write", ASKS),
            ("near", "write", ANSWERS),
            ("near", "served", b""),
            ("near", "write", LEAVES),
            ("near", "finished", b""),
        ],
    ),
    (Turn::Near(&[REQUEST]), &[]),
];

/// The near link ends before the answer comes: nothing is written near.
const LATE: [Row; 4] = [
    STARTS,
    ASKED,
    COMES_ANEW,
    (Turn::Far(&[ROUTER, REPLY]), &[("far", "write", ASKS)]),
];

/// A REQUEST of the new near link is kept, a second one dropped; when the late answer came the kept one is asked.
const KEPT: [Row; 6] = [
    STARTS,
    ASKED,
    COMES_ANEW,
    (
        Turn::Near(&[ROUTER, OTHER, REQUEST]),
        &[("near", "write", REGISTERS)],
    ),
    (
        Turn::Far(&[ROUTER, REPLY]),
        &[("far", "write", ASKS), ("far", "write", ASKS_OTHER)],
    ),
    (
        Turn::Far(&[REPLY]),
        &[("near", "write", ANSWERS_OTHER), ("near", "served", b"")],
    ),
];

/// A kept REQUEST is forgotten where its near link ends.
const FORGOTTEN: [Row; 6] = [
    STARTS,
    ASKED,
    COMES_ANEW,
    (
        Turn::Near(&[ROUTER, OTHER]),
        &[("near", "write", REGISTERS)],
    ),
    COMES_ANEW,
    (Turn::Far(&[ROUTER, REPLY]), &[("far", "write", ASKS)]),
];

/// A REQUEST that comes while another of its link is open is dropped; the open one is answered once.
const DROPPED: [Row; 5] = [
    STARTS,
    ASKED,
    (Turn::Near(&[OTHER]), &[]),
    (
        Turn::Far(&[ROUTER, REPLY, REPLY]),
        &[
            ("far", "write", ASKS),
            ("near", "write", ANSWERS),
            ("near", "served", b""),
        ],
    ),
    (Turn::Far(&[REPLY]), &[]),
];

/// The far broker is silent: the bridge leaves the near one.
const GIVEN_UP: [Row; 4] = [
    STARTS,
    ASKED,
    (
        Turn::FarIdle,
        &[("near", "write", LEAVES), ("far", "no answer", b"")],
    ),
    (Turn::Far(&[ROUTER, REPLY]), &[]),
];

/// What the call does; None where it may not be made.
fn acts_of(alloc: Global, bridge: &mut Bridge, turn: Turn) -> Result<Option<BridgeActs>, Fail> {
    if bridge.is_spent() {
        return Ok(None);
    }
    let acts = match turn {
        Turn::Start => bridge.start(alloc)?,
        Turn::Near(parts) => bridge.near(alloc, piece(alloc, parts)?)?,
        Turn::NearEnd => bridge.near(alloc, LinkEvent::End)?,
        Turn::Far(parts) => bridge.far(alloc, piece(alloc, parts)?)?,
        Turn::FarIdle => bridge.far(alloc, LinkEvent::Idle)?,
    };
    Ok(Some(acts))
}

/// The first row, from 0, that isn't as it says.
fn first_wrong(alloc: Global, bridge: &mut Bridge, rows: &[Row]) -> Result<Option<usize>, Fail> {
    for (at, (turn, wanted)) in rows.iter().enumerate() {
        let fits = match acts_of(alloc, bridge, *turn)? {
            Some(acts) => are(&acts, *wanted),
            None => false,
        };
        if !fits {
            return Ok(Some(at));
        }
    }
    Ok(None)
}

fn new_bridge(alloc: Global, tries: u32, wait: u32, count: u64) -> Result<Bridge, Fail>
    requires tries { 1 ≤ tries }
    requires wait { 1 ≤ wait }
{
    match (Name::of(b"echo"), Name::of(b"sum")) {
        (Some(echo), Some(sum)) => Ok(Bridge::new(alloc, echo, sum, tries, wait, count)?),
        _ => Err("no name".into()),
    }
}

#[test]
fn a_bridge_serves_its_count(rt: HostRuntime) -> Result<(), Fail> {
    let mut bridge = new_bridge(rt.alloc(), 3, 25, 1)?;
    assert!(rt; first_wrong(rt.alloc(), &mut bridge, &COUNTED)? == None);
    assert!(rt; bridge.served() == 1 && bridge.is_over() && !bridge.is_spent());
    Ok(())
}

#[test]
fn an_answer_to_an_earlier_near_link_is_not_written(rt: HostRuntime) -> Result<(), Fail> {
    let mut bridge = new_bridge(rt.alloc(), 3, 25, 1)?;
    assert!(rt; first_wrong(rt.alloc(), &mut bridge, &LATE)? == None);
    assert!(rt; bridge.served() == 0 && !bridge.is_over());
    Ok(())
}

#[test]
fn a_kept_request_is_asked_afterwards(rt: HostRuntime) -> Result<(), Fail> {
    let mut bridge = new_bridge(rt.alloc(), 3, 25, 0)?;
    assert!(rt; first_wrong(rt.alloc(), &mut bridge, &KEPT)? == None);
    assert!(rt; bridge.served() == 1);
    Ok(())
}

#[test]
fn a_kept_request_is_forgotten_with_its_link(rt: HostRuntime) -> Result<(), Fail> {
    let mut bridge = new_bridge(rt.alloc(), 3, 25, 0)?;
    assert!(rt; first_wrong(rt.alloc(), &mut bridge, &FORGOTTEN)? == None);
    Ok(())
}

#[test]
fn a_second_request_is_dropped(rt: HostRuntime) -> Result<(), Fail> {
    let mut bridge = new_bridge(rt.alloc(), 3, 25, 0)?;
    assert!(rt; first_wrong(rt.alloc(), &mut bridge, &DROPPED)? == None);
    assert!(rt; bridge.served() == 1);
    Ok(())
}

#[test]
fn a_bridge_leaves_where_the_far_broker_is_silent(rt: HostRuntime) -> Result<(), Fail> {
    let mut bridge = new_bridge(rt.alloc(), 1, 1, 0)?;
    assert!(rt; first_wrong(rt.alloc(), &mut bridge, &GIVEN_UP)? == None);
    assert!(rt; bridge.served() == 0 && bridge.is_over());
    Ok(())
}
