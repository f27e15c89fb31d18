use super::scripts::{REPLY, REQUEST, link_of, run};
use mj_base::{LinkEvent, ScriptLink};
use std::test::Fail;

#[test]
fn a_bridge_serves_its_count(rt: HostRuntime) -> Result<(), Fail> {
    let alloc = rt.alloc();
    let mut near = link_of(alloc, REQUEST, Vec::new(alloc))?;
    let mut far = link_of(alloc, REPLY, Vec::new(alloc))?;
    let (status, printed) = run(
        &rt,
        alloc,
        "a bridge echo b sum --count 1",
        &mut near,
        &mut far,
    )?;
    assert!(rt; status == 0 && printed.as_slice() == b"bridged 1\n".as_slice());
    let said_near = b"\x01\0\x01\x06MDPW01\x01\x01\x01\0\x04echo\
\x01\0\x01\x06MDPW01\x01\x01\x03\x01\x02C2\x01\0\0\x02ho\
\x01\0\x01\x06MDPW01\0\x01\x05";
    assert!(rt; near.written().ends_with(said_near));
    assert!(rt;
        far.written()
            .ends_with(b"\x01\0\x01\x06MDPC01\x01\x03sum\0\x02hi")
    );
    Ok(())
}

#[test]
fn a_bridge_leaves_where_the_far_broker_is_silent(rt: HostRuntime) -> Result<(), Fail> {
    let alloc = rt.alloc();
    let mut near = link_of(alloc, REQUEST, Vec::new(alloc))?;
    let mut far = ScriptLink::new(alloc, Vec::new(alloc), Vec::new(alloc));
    let (status, printed) = run(
        &rt,
        alloc,
        "a bridge echo b sum --tries 1 --wait 2",
        &mut near,
        &mut far,
    )?;
    assert!(rt; status == 8 && printed.as_slice() == b"fault no-answer 0\n".as_slice());
    assert!(rt; near.written().ends_with(b"\x01\0\x01\x06MDPW01\0\x01\x05"));
    Ok(())
}

#[test]
fn a_bridge_gives_up_where_the_near_broker_is_gone(rt: HostRuntime) -> Result<(), Fail> {
    let alloc = rt.alloc();
    let mut events = Vec::new(alloc);
    events.push(LinkEvent::End)?;
    let mut near = ScriptLink::new(alloc, events, Vec::new(alloc));
    let mut far = ScriptLink::new(alloc, Vec::new(alloc), Vec::new(alloc));
    let (status, printed) = run(
        &rt,
        alloc,
        "a bridge echo b sum --tries 1",
        &mut near,
        &mut far,
    )?;
    assert!(rt; status == 8 && printed.as_slice() == b"fault no-answer 0\n".as_slice());
    assert!(rt; far.written().is_empty());
    Ok(())
}

#[test]
fn other_words_are_refused(rt: HostRuntime) -> Result<(), Fail> {
    let alloc = rt.alloc();
    let refused = [
        "",
        "a bridge echo b",
        "--a bridge echo b sum",
        "a bridge echo --b sum",
        "a bridges echo b sum",
        "a bridge echo b sum --parts 1",
        "a bridge echo b sum --count 0",
        "a bridge echo b sum --wait 1 --wait 1",
    ];
    for text in refused {
        let mut near = link_of(alloc, b"", Vec::new(alloc))?;
        let mut far = link_of(alloc, b"", Vec::new(alloc))?;
        let (status, printed) = run(&rt, alloc, text, &mut near, &mut far)?;
        assert!(rt;
            status == 1 && printed.as_slice() == b"fault words\n".as_slice(),
            "{text}"
        );
        assert!(rt; near.written().is_empty() && far.written().is_empty());
    }
    Ok(())
}
