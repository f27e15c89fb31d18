//! The bytes of the runs, spelled by hand (ZeroMQ RFC 7 and 23), and what the tests of both ends share.
use mj_base::{Frames, LinkEvent, Octets};
use mj_peer::{Act, Acts};
use std::alloc::Global;
use std::test::Fail;

/// Greeting and READY of a REQ, a DEALER and a ROUTER.
pub(crate) const REQ: &[u8] = b"\xff\0\0\0\0\0\0\0\0\x7f\x03\0NULL\0\0\0\0\0\0\0\0\0\0\0\0\0\0\0\0\
\0\0\0\0\0\0\0\0\0\0\0\0\0\0\0\0\0\0\0\0\0\0\0\0\0\0\0\0\0\0\0\0\
\x04\x19\x05READY\x0bSocket-Type\0\0\0\x03REQ";

pub(crate) const DEALER: &[u8] =
    b"\xff\0\0\0\0\0\0\0\0\x7f\x03\0NULL\0\0\0\0\0\0\0\0\0\0\0\0\0\0\0\0\
\0\0\0\0\0\0\0\0\0\0\0\0\0\0\0\0\0\0\0\0\0\0\0\0\0\0\0\0\0\0\0\0\
\x04\x1c\x05READY\x0bSocket-Type\0\0\0\x06DEALER";

pub(crate) const ROUTER: &[u8] =
    b"\xff\0\0\0\0\0\0\0\0\x7f\x03\0NULL\0\0\0\0\0\0\0\0\0\0\0\0\0\0\0\0\
\0\0\0\0\0\0\0\0\0\0\0\0\0\0\0\0\0\0\0\0\0\0\0\0\0\0\0\0\0\0\0\0\
\x04\x1c\x05READY\x0bSocket-Type\0\0\0\x06ROUTER";

/// Acts, each with its name and its bytes, of a reply the first frame.
pub(crate) type Wanted = &'static [(&'static str, &'static [u8])];

/// A piece of the link, of these parts.
pub(crate) fn piece(alloc: Global, parts: &[&[u8]]) -> Result<LinkEvent, Fail> {
    let mut octets = Octets::new(alloc);
    for part in parts {
        octets.push_all(part)?;
    }
    Ok(LinkEvent::Given(octets))
}

/// A body of one frame.
pub(crate) fn body(alloc: Global, frame: &[u8]) -> Result<Frames, Fail> {
    let mut frames = Frames::new(alloc);
    frames.push(frame)?;
    Ok(frames)
}

/// What is said of an act: its name and its bytes, of a reply the first frame.
fn said(act: &Act) -> (&'static str, &[u8]) {
    match act {
        Act::Write(text) => ("write", text.as_slice()),
        Act::Reopen => ("reopen", b""),
        Act::Part(frames) => ("part", frames.get(0).unwrap_or(b"")),
        Act::Done(frames) => ("done", frames.get(0).unwrap_or(b"")),
        Act::Served => ("served", b""),
        Act::Finished => ("finished", b""),
        Act::NoAnswer => ("no answer", b""),
    }
}

/// Whether these are the acts.
pub(crate) fn are(acts: &Acts, wanted: Wanted) -> bool {
    if acts.len() != wanted.len() {
        return false;
    }
    for (act, want) in acts.as_slice().iter().zip(wanted) {
        let (name, octets) = said(act);
        if name != want.0 || octets != want.1 {
            return false;
        }
    }
    true
}
