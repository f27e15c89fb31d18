use mj_base::{LinkEvent, MemorySink, MemorySource, Octets, ScriptLink};
use mj_peer_prog::peer;
use std::alloc::Global;
use std::sync::Wait;
use std::test::Fail;

/// Greeting and READY of the broker.
pub const ROUTER: &[u8] = b"\xff\0\0\0\0\0\0\0\0\x7f\x03\0NULL\0\0\0\0\0\0\0\0\0\0\0\0\0\0\0\0\
\0\0\0\0\0\0\0\0\0\0\0\0\0\0\0\0\0\0\0\0\0\0\0\0\0\0\0\0\0\0\0\0\
\x04\x1c\x05READY\x0bSocket-Type\0\0\0\x06ROUTER";

/// The reply `ho` of `echo` in 0.1.
pub const ANSWER: &[u8] = b"\x01\0\x01\x06MDPC01\x01\x04echo\0\x02ho";

/// The request `hi` in 0.1, from the client of lane 2.
pub const REQUEST: &[u8] =
    b"\x01\0\x01\x06MDPW01\x01\x01\x02\x01\x09C\0\0\0\0\0\0\0\x02\x01\0\0\x02hi";

/// A link that gives these bytes, if there are any, and fails at these calls.
pub fn link_of(
    alloc: Global,
    first: &[u8],
    second: &[u8],
    failing: Vec<u64>,
) -> Result<ScriptLink, Fail> {
    let mut events = Vec::new(alloc);
    let mut piece = Octets::copy_of(alloc, first)?;
    piece.push_all(second)?;
    if !piece.is_empty() {
        events.push(LinkEvent::Given(piece))?;
    }
    Ok(ScriptLink::new(alloc, events, failing))
}

/// The status of these words with this input over this link, and what is printed.
pub fn run<R: Wait>(
    rt: &R,
    alloc: Global,
    text: &str,
    input: &[u8],
    link: &mut ScriptLink,
) -> Result<(u8, Octets), Fail> {
    let mut src = MemorySource::new(Octets::copy_of(alloc, input)?, Vec::new(alloc));
    let mut out = MemorySink::new(alloc, Vec::new(alloc));
    let words = words_of(alloc, text)?;
    let status = peer(rt, alloc, words.as_slice(), link, &mut src, &mut out);
    Ok((status, Octets::copy_of(alloc, out.written())?))
}

/// The words of a line.
pub fn words_of(alloc: Global, text: &str) -> Result<Vec<String>, Fail> {
    let mut words = Vec::new(alloc);
    for word in text.split(' ') {
        words.push(String::from_str(alloc, word)?)?;
    }
    Ok(words)
}
