//! The bytes of the rows, spelled by hand (ZeroMQ RFC 7), and how the command is called.
use mj_base::{LinkEvent, MemorySink, Octets, ScriptLink};
use mj_bridge_prog::bridge;
use std::alloc::Global;
use std::sync::Wait;
use std::test::Fail;

/// Greeting and READY of a broker.
pub(crate) const ROUTER: &[u8] =
    b"\xff\0\0\0\0\0\0\0\0\x7f\x03\0NULL\0\0\0\0\0\0\0\0\0\0\0\0\0\0\0\0\
\0\0\0\0\0\0\0\0\0\0\0\0\0\0\0\0\0\0\0\0\0\0\0\0\0\0\0\0\0\0\0\0\
\x04\x1c\x05READY\x0bSocket-Type\0\0\0\x06ROUTER";

/// A REQUEST of the near broker, and the far one's reply.
pub(crate) const REQUEST: &[u8] = b"\x01\0\x01\x06MDPW01\x01\x01\x02\x01\x02C2\x01\0\0\x02hi";

pub(crate) const REPLY: &[u8] = b"\x01\0\x01\x06MDPC01\x01\x03sum\0\x02ho";

/// The words of a row, by their spaces.
pub(crate) fn words_of(alloc: Global, text: &str) -> Result<Vec<String>, Fail> {
    let mut words = Vec::new(alloc);
    for word in text.split(' ') {
        words.push(String::from_str(alloc, word)?)?;
    }
    Ok(words)
}

/// A link that gives the broker's beginning with this behind it in one piece, then nothing; the calls of these numbers fail.
pub(crate) fn link_of(alloc: Global, text: &[u8], failing: Vec<u64>) -> Result<ScriptLink, Fail> {
    let mut piece = Octets::copy_of(alloc, ROUTER)?;
    piece.push_all(text)?;
    let mut events = Vec::new(alloc);
    events.push(LinkEvent::Given(piece))?;
    Ok(ScriptLink::new(alloc, events, failing))
}

/// The status, and what was printed.
pub(crate) fn run<R: Wait>(
    rt: &R,
    alloc: Global,
    text: &str,
    near: &mut ScriptLink,
    far: &mut ScriptLink,
) -> Result<(u8, Octets), Fail> {
    let words = words_of(alloc, text)?;
    let mut out = MemorySink::new(alloc, Vec::new(alloc));
    let status = bridge(rt, alloc, words.as_slice(), near, far, &mut out);
    Ok((status, Octets::copy_of(alloc, out.written())?))
}
