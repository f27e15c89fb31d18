use mj_base::{LinkEvent, MemorySink, MemorySource, Name, Octets, ScriptLink, Version};
use mj_peer::ClientEnd;
use mj_peering::{Feed, run_client};
use std::alloc::Global;
use std::sync::Wait;
use std::test::Fail;

/// Greeting and READY of the broker, and the reply `ho` of `echo` in 0.1.
const ANSWERED: &[u8] = b"\xff\0\0\0\0\0\0\0\0\x7f\x03\0NULL\0\0\0\0\0\0\0\0\0\0\0\0\0\0\0\0\
\0\0\0\0\0\0\0\0\0\0\0\0\0\0\0\0\0\0\0\0\0\0\0\0\0\0\0\0\0\0\0\0\
\x04\x1c\x05READY\x0bSocket-Type\0\0\0\x06ROUTER\
\x01\0\x01\x06MDPC01\x01\x04echo\0\x02ho";

/// What a client prints that asks `hi` over this link.
fn asked<R: Wait>(rt: &R, alloc: Global, link: &mut ScriptLink) -> Result<(u64, Octets), Fail> {
    let Some(echo) = Name::of(b"echo") else {
        return Ok((0, Octets::new(alloc)));
    };
    let mut end = ClientEnd::new(alloc, Version::One, echo, 2, 3)?;
    let mut feed = Feed::new(alloc)?;
    let mut src = MemorySource::new(Octets::copy_of(alloc, b"hi")?, Vec::new(alloc));
    let mut out = MemorySink::new(alloc, Vec::new(alloc));
    let Ok(n) = run_client(rt, alloc, &mut end, &mut feed, link, &mut src, &mut out) else {
        return Ok((9, Octets::new(alloc)));
    };
    Ok((n, Octets::copy_of(alloc, out.written())?))
}

#[test]
fn a_line_is_asked_and_answered(rt: HostRuntime) -> Result<(), Fail> {
    let alloc = rt.alloc();
    let mut events = Vec::new(alloc);
    events.push(LinkEvent::Given(Octets::copy_of(alloc, ANSWERED)?))?;
    let mut link = ScriptLink::new(alloc, events, Vec::new(alloc));
    let (n, printed) = asked(&rt, alloc, &mut link)?;
    assert!(rt; n == 1);
    assert!(rt; printed.as_slice() == b"reply 686f\n".as_slice());

    // Over a link that gives nothing it is given up.
    let mut silent = ScriptLink::new(alloc, Vec::new(alloc), Vec::new(alloc));
    let (n, printed) = asked(&rt, alloc, &mut silent)?;
    assert!(rt; n == 1);
    assert!(rt; printed.is_empty());
    Ok(())
}
