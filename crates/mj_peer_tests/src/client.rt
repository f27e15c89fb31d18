use super::texts::{DEALER, REQ, ROUTER, Wanted, are, body, piece};
use mj_base::{LinkEvent, Name, Version};
use mj_peer::{Acts, ClientEnd};
use std::alloc::Global;
use std::test::Fail;

const QUESTION: &[u8] = b"\x01\0\x01\x06MDPC01\x01\x04echo\0\x02hi";

const ANSWER: &[u8] = b"\x01\0\x01\x06MDPC01\x01\x04echo\0\x02ho";

const QUESTION_TWO: &[u8] = b"\x01\x06MDPC02\x01\x01\x01\x01\x04echo\0\x02hi";

const PARTIAL: &[u8] = b"\x01\x06MDPC02\x01\x01\x02\x01\x04echo\0\x01p";

const FINAL: &[u8] = b"\x01\x06MDPC02\x01\x01\x03\x01\x04echo\0\x01f";

/// A call of a client's end.
#[derive(Clone, Copy)]
enum Turn {
    /// `hi` is asked.
    Ask,
    /// Nothing came for a while.
    Idle,
    /// The link has ended.
    End,
    /// These bytes came.
    Given(&'static [&'static [u8]]),
}

/// A call, its acts, and whether a request is open behind it.
type Row = (Turn, Wanted, bool);

/// The request is written behind the broker's READY, and another version's reply isn't its. The next one is written at once;
/// a reply that nobody waits for is dropped.
const ANSWERED: [Row; 4] = [
    (Turn::Ask, &[("write", REQ)], true),
    (
        Turn::Given(&[ROUTER, FINAL, ANSWER]),
        &[("write", QUESTION), ("done", b"ho")],
        false,
    ),
    (Turn::Ask, &[("write", QUESTION)], true),
    (Turn::Given(&[ANSWER, ANSWER]), &[("done", b"ho")], false),
];

/// Without a request `Idle` does nothing, and an end opens the link anew. Then a partial reply, a fault of the stream as the
/// second quiet event, and the third; the second try is the last.
const GIVEN_UP: [Row; 13] = [
    (Turn::Idle, &[], false),
    (Turn::End, &[("reopen", b""), ("write", DEALER)], false),
    (Turn::Ask, &[], true),
    (
        Turn::Given(&[ROUTER, PARTIAL]),
        &[("write", QUESTION_TWO), ("part", b"p")],
        true,
    ),
    (Turn::Idle, &[], true),
    (
        Turn::Given(&[b"\x08"]),
        &[("reopen", b""), ("write", DEALER)],
        true,
    ),
    (Turn::Given(&[ROUTER]), &[("write", QUESTION_TWO)], true),
    (Turn::Idle, &[("reopen", b""), ("write", DEALER)], true),
    (Turn::Idle, &[], true),
    (Turn::End, &[("reopen", b""), ("write", DEALER)], true),
    (Turn::Idle, &[("no answer", b"")], false),
    (Turn::End, &[], false),
    (Turn::Ask, &[], false),
];

/// What the call does; None where it may not be made.
fn acts_of(alloc: Global, end: &mut ClientEnd, turn: Turn) -> Result<Option<Acts>, Fail> {
    if end.is_spent() || end.is_asking() && matches!(turn, Turn::Ask) {
        return Ok(None);
    }
    let acts = match turn {
        Turn::Ask => end.ask(alloc, &body(alloc, b"hi")?)?,
        Turn::Idle => end.step(alloc, LinkEvent::Idle)?,
        Turn::End => end.step(alloc, LinkEvent::End)?,
        Turn::Given(parts) => end.step(alloc, piece(alloc, parts)?)?,
    };
    Ok(Some(acts))
}

/// The first row, from 0, that isn't as it says.
fn first_wrong(alloc: Global, end: &mut ClientEnd, rows: &[Row]) -> Result<Option<usize>, Fail> {
    for (at, (turn, wanted, asking)) in rows.iter().enumerate() {
        let is_right = match acts_of(alloc, end, *turn)? {
            Some(acts) => are(&acts, wanted) && end.is_asking() == *asking,
            None => false,
        };
        if !is_right {
            return Ok(Some(at));
        }
    }
    Ok(None)
}

fn new_client(alloc: Global, version: Version) -> Result<ClientEnd, Fail> {
    match Name::of(b"echo") {
        Some(echo) => Ok(ClientEnd::new(alloc, version, echo, 2, 3)?),
        None => Err("no name".into()),
    }
}

#[test]
fn a_client_asks_and_is_answered(rt: HostRuntime) -> Result<(), Fail> {
    let mut end = new_client(rt.alloc(), Version::One)?;
    assert!(rt; first_wrong(rt.alloc(), &mut end, &ANSWERED)? == None);
    assert!(rt; !end.is_over());
    Ok(())
}

#[test]
fn a_client_tries_again_and_gives_up(rt: HostRuntime) -> Result<(), Fail> {
    let mut end = new_client(rt.alloc(), Version::Two)?;
    assert!(rt; first_wrong(rt.alloc(), &mut end, &GIVEN_UP)? == None);
    assert!(rt; end.is_over());
    Ok(())
}

#[test]
fn acts_are_there_below_their_number(rt: HostRuntime) -> Result<(), Fail> {
    let mut end = new_client(rt.alloc(), Version::One)?;
    let Some(acts) = acts_of(rt.alloc(), &mut end, Turn::Ask)? else {
        return Err("a call that may not be made".into());
    };
    assert!(rt; acts.get(0).is_some() && acts.get(1).is_none() && !acts.is_empty());
    Ok(())
}
