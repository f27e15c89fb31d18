//! The bytes of the runs, spelled by hand (ZeroMQ RFC 7), and what is looked at in a bridge's acts.
use mj_base::{LinkEvent, Octets};
use mj_bridge::{BridgeAct, BridgeActs};
use mj_peer::Act;
use std::alloc::Global;
use std::test::Fail;

/// Greeting and READY of a REQ, a DEALER and a ROUTER.
pub(crate) const REQ: &[u8] = b"\xff\0\0\0\0\0\0\0\0\x7f\x03\0NULL\0\0\0\0\0\0\0\0\0\0\0\0\0\0\0\0\
\0\0\0\0\0\0\0\0\0\0\0\0\0\0\0\0\0\0\0\0\0\0\0\0\0\0\0\0\0\0\0\0\
\x04\x19\x05READY\x0bSocket-Type\0\0\0\x03REQ";

pub(crate) const DEALER: &[u8] =
    b"\xff\0\0\0\0\0\0\0\0\x7f\x03\0NULL\0\0\0\0\0\0\0\0\0\0\0\0\0\0\0\0\
\0\0\0\0\0\0\0\0\0\0\0\0\0\0\0\0\0\0\0\0\0\0\0\0\0\0\0\0\0\0\0\0\
\x04\x1c\x05READY\x0bSocket-Type\0\0\0\x06DEALER";

pub(crate) const ROUTER: &[u8] =
    b"\xff\0\0\0\0\0\0\0\0\x7f\x03\0NULL\0\0\0\0\0\0\0\0\0\0\0\0\0\0\0\0\
\0\0\0\0\0\0\0\0\0\0\0\0\0\0\0\0\0\0\0\0\0\0\0\0\0\0\0\0\0\0\0\0\
\x04\x1c\x05READY\x0bSocket-Type\0\0\0\x06ROUTER";

/// What the bridge says near.
pub(crate) const REGISTERS: &[u8] = b"\x01\0\x01\x06MDPW01\x01\x01\x01\0\x04echo";

pub(crate) const LEAVES: &[u8] = b"\x01\0\x01\x06MDPW01\0\x01\x05";

/// REQUESTs of two clients, what is asked far for each, and their answers.
pub(crate) const REQUEST: &[u8] = b"\x01\0\x01\x06MDPW01\x01\x01\x02\x01\x02C2\x01\0\0\x02hi";

pub(crate) const ASKS: &[u8] = b"\x01\0\x01\x06MDPC01\x01\x03sum\0\x02hi";

pub(crate) const ANSWERS: &[u8] = b"\x01\0\x01\x06MDPW01\x01\x01\x03\x01\x02C2\x01\0\0\x02ho";

pub(crate) const OTHER: &[u8] = b"\x01\0\x01\x06MDPW01\x01\x01\x02\x01\x02C3\x01\0\0\x03hey";

pub(crate) const ASKS_OTHER: &[u8] = b"\x01\0\x01\x06MDPC01\x01\x03sum\0\x03hey";

pub(crate) const ANSWERS_OTHER: &[u8] = b"\x01\0\x01\x06MDPW01\x01\x01\x03\x01\x02C3\x01\0\0\x02ho";

/// The far broker's reply.
pub(crate) const REPLY: &[u8] = b"\x01\0\x01\x06MDPC01\x01\x03sum\0\x02ho";

/// Acts, each with its side, its name and its bytes.
pub(crate) type Wanted = &'static [(&'static str, &'static str, &'static [u8])];

/// A piece of a link, of these parts.
pub(crate) fn piece(alloc: Global, parts: &[&[u8]]) -> Result<LinkEvent, Fail> {
    let mut octets = Octets::new(alloc);
    for part in parts {
        octets.push_all(part)?;
    }
    Ok(LinkEvent::Given(octets))
}

/// What is said of an act: its name and its bytes.
fn said(act: &Act) -> (&'static str, &[u8]) {
    match act {
        Act::Write(text) => ("write", text.as_slice()),
        Act::Reopen => ("reopen", b""),
        Act::Part(_) => ("part", b""),
        Act::Done(_) => ("done", b""),
        Act::Served => ("served", b""),
        Act::Finished => ("finished", b""),
        Act::NoAnswer => ("no answer", b""),
    }
}

/// Whether these are the acts.
pub(crate) fn are(acts: &BridgeActs, wanted: Wanted) -> bool {
    if acts.len() != wanted.len() {
        return false;
    }
    for (act, want) in acts.as_slice().iter().zip(wanted) {
        let (side, act) = match act {
            BridgeAct::Near(act) => ("near", act),
            BridgeAct::Far(act) => ("far", act),
        };
        let (name, octets) = said(act);
        if side != want.0 || name != want.1 || octets != want.2 {
            return false;
        }
    }
    true
}
