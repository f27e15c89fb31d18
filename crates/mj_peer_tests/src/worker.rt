ghost use Rattle.std.specs.Prelude.{◌≤◌};

use super::texts::{DEALER, ROUTER, Wanted, are, piece};
use mj_base::{LinkEvent, Name, Version};
use mj_peer::{Acts, WorkerEnd};
use std::alloc::Global;
use std::test::Fail;

const READY: &[u8] = b"\x01\0\x01\x06MDPW01\x01\x01\x01\0\x04echo";

const REQUEST: &[u8] = b"\x01\0\x01\x06MDPW01\x01\x01\x02\x01\x09C\0\0\0\0\0\0\0\x02\x01\0\0\x02hi";

const REPLY: &[u8] = b"\x01\0\x01\x06MDPW01\x01\x01\x03\x01\x09C\0\0\0\0\0\0\0\x02\x01\0\0\x02hi";

const HEARTBEAT: &[u8] = b"\x01\0\x01\x06MDPW01\0\x01\x04";

const DISCONNECT: &[u8] = b"\x01\0\x01\x06MDPW01\0\x01\x05";

const READY_TWO: &[u8] = b"\x01\x06MDPW02\x01\x01\x01\0\x04echo";

const REQUEST_TWO: &[u8] = b"\x01\x06MDPW02\x01\x01\x02\x01\x09C\0\0\0\0\0\0\0\x02\x01\0\0\x02hi";

const PARTIAL: &[u8] = b"\x01\x06MDPW02\x01\x01\x03\x01\x09C\0\0\0\0\0\0\0\x02\x01\0\0\x02hi";

const FINAL: &[u8] = b"\x01\x06MDPW02\x01\x01\x04\x01\x09C\0\0\0\0\0\0\0\x02\x01\0\0\x02hi";

const DISCONNECT_TWO: &[u8] = b"\x01\x06MDPW02\0\x01\x06";

/// A call of a worker's end.
#[derive(Clone, Copy)]
enum Turn {
    /// The worker is started.
    Start,
    /// Nothing came for a while.
    Idle,
    /// The link has ended.
    End,
    /// These bytes came.
    Given(&'static [&'static [u8]]),
}

/// A call and its acts.
type Row = (Turn, Wanted);

/// Another version's REQUEST isn't its, and behind the last one that it counts it leaves.
const COUNTED: [Row; 3] = [
    (Turn::Start, &[("write", DEALER)]),
    (
        Turn::Given(&[ROUTER, REQUEST_TWO, REQUEST, REQUEST]),
        &[
            ("write", READY),
            ("write", REPLY),
            ("served", b""),
            ("write", DISCONNECT),
            ("finished", b""),
        ],
    ),
    (Turn::End, &[]),
];

/// In 0.2, with partial replies before the final one; a DISCONNECT ends what came on the link.
const IN_PARTS: [Row; 2] = [
    (Turn::Start, &[("write", DEALER)]),
    (
        Turn::Given(&[ROUTER, REQUEST_TWO, DISCONNECT_TWO, REQUEST_TWO]),
        &[
            ("write", READY_TWO),
            ("write", PARTIAL),
            ("write", PARTIAL),
            ("write", FINAL),
            ("served", b""),
            ("reopen", b""),
            ("write", DEALER),
        ],
    ),
];

const STARTED: [Row; 2] = [
    (Turn::Start, &[("write", DEALER)]),
    (Turn::Given(&[ROUTER]), &[("write", READY)]),
];

/// What the call does; None where it may not be made.
fn acts_of(alloc: Global, end: &mut WorkerEnd, turn: Turn) -> Result<Option<Acts>, Fail> {
    if end.is_spent() {
        return Ok(None);
    }
    let acts = match turn {
        Turn::Start => end.start(alloc)?,
        Turn::Idle => end.step(alloc, LinkEvent::Idle)?,
        Turn::End => end.step(alloc, LinkEvent::End)?,
        Turn::Given(parts) => end.step(alloc, piece(alloc, parts)?)?,
    };
    Ok(Some(acts))
}

fn is_as_wanted(
    alloc: Global,
    end: &mut WorkerEnd,
    turn: Turn,
    wanted: Wanted,
) -> Result<bool, Fail> {
    match acts_of(alloc, end, turn)? {
        Some(acts) => Ok(are(&acts, wanted)),
        None => Ok(false),
    }
}

/// The first row, from 0, that isn't as it says.
fn first_wrong(alloc: Global, end: &mut WorkerEnd, rows: &[Row]) -> Result<Option<usize>, Fail> {
    for (at, (turn, wanted)) in rows.iter().enumerate() {
        if !is_as_wanted(alloc, end, *turn, wanted)? {
            return Ok(Some(at));
        }
    }
    Ok(None)
}

fn new_worker(
    alloc: Global,
    version: Version,
    tries: u32,
    parts: u32,
    count: u64,
) -> Result<WorkerEnd, Fail>
    requires { 1 ≤ tries }
{
    match Name::of(b"echo") {
        Some(echo) => Ok(WorkerEnd::new(alloc, version, echo, tries, parts, count)?),
        None => Err("no name".into()),
    }
}

#[test]
fn a_worker_serves_its_count(rt: HostRuntime) -> Result<(), Fail> {
    let mut end = new_worker(rt.alloc(), Version::One, 3, 0, 1)?;
    assert!(rt; first_wrong(rt.alloc(), &mut end, &COUNTED)? == None);
    assert!(rt; end.served() == 1 && end.is_over() && !end.is_spent());
    Ok(())
}

#[test]
fn a_worker_answers_in_parts(rt: HostRuntime) -> Result<(), Fail> {
    let mut end = new_worker(rt.alloc(), Version::Two, 3, 2, 0)?;
    assert!(rt; first_wrong(rt.alloc(), &mut end, &IN_PARTS)? == None);
    Ok(())
}

/// Each 25th idle event writes HEARTBEAT, the 75th ends the only try.
#[test]
fn a_worker_beats_and_gives_up(rt: HostRuntime) -> Result<(), Fail> {
    let mut end = new_worker(rt.alloc(), Version::One, 1, 0, 1)?;
    assert!(rt; first_wrong(rt.alloc(), &mut end, &STARTED)? == None);
    for turn in 1..76 {
        let wanted: Wanted = match turn {
            25 | 50 => &[("write", HEARTBEAT)],
            75 => &[("no answer", b"")],
            _ => &[],
        };
        assert!(rt;
            is_as_wanted(rt.alloc(), &mut end, Turn::Idle, wanted)?,
            "{turn}"
        );
    }
    assert!(rt; end.served() == 0);
    Ok(())
}
