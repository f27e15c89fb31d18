use super::tests::{ANSWER, REQUEST, ROUTER, link_of, run};
use mj_base::{LinkEvent, ScriptLink};
use std::test::Fail;

#[test]
fn a_client_gives_up_where_nobody_answers(rt: HostRuntime) -> Result<(), Fail> {
    let alloc = rt.alloc();
    let mut silent = link_of(alloc, b"", b"", Vec::new(alloc))?;
    let (status, printed) = run(
        &rt,
        alloc,
        "a client 1 echo --tries 2 --wait 3",
        b"hi",
        &mut silent,
    )?;
    assert!(rt; status == 8 && printed.as_slice() == b"fault no-answer 1\n".as_slice());

    let mut events = Vec::new(alloc);
    events.push(LinkEvent::End)?;
    let mut gone = ScriptLink::new(alloc, events, Vec::new(alloc));
    let (status, printed) = run(
        &rt,
        alloc,
        "a client 2 echo --tries 1 --wait 1",
        b"hi",
        &mut gone,
    )?;
    assert!(rt; status == 8 && printed.as_slice() == b"fault no-answer 1\n".as_slice());
    Ok(())
}

#[test]
fn a_client_prints_its_reply(rt: HostRuntime) -> Result<(), Fail> {
    let alloc = rt.alloc();
    let mut link = link_of(alloc, ROUTER, ANSWER, Vec::new(alloc))?;
    let (status, printed) = run(
        &rt,
        alloc,
        "a client 1 echo --wait 3 --tries 2",
        b"hi",
        &mut link,
    )?;
    assert!(rt; status == 0 && printed.as_slice() == b"reply 686f\ndone 1\n".as_slice());

    // With no input nothing is asked and nothing written.
    let mut link = link_of(alloc, b"", b"", Vec::new(alloc))?;
    let (status, printed) = run(&rt, alloc, "a client 1 echo", b"", &mut link)?;
    assert!(rt; status == 0 && printed.as_slice() == b"done 0\n".as_slice());
    assert!(rt; link.written().is_empty());
    Ok(())
}

#[test]
fn a_worker_serves_its_count(rt: HostRuntime) -> Result<(), Fail> {
    let alloc = rt.alloc();
    let mut link = link_of(alloc, ROUTER, REQUEST, Vec::new(alloc))?;
    let (status, printed) = run(&rt, alloc, "a worker 1 echo --count 1", b"", &mut link)?;
    assert!(rt; status == 0 && printed.as_slice() == b"served 1\n".as_slice());
    let said = b"\x01\0\x01\x06MDPW01\x01\x01\x01\0\x04echo\
\x01\0\x01\x06MDPW01\x01\x01\x03\x01\x09C\0\0\0\0\0\0\0\x02\x01\0\0\x02hi\
\x01\0\x01\x06MDPW01\0\x01\x05";
    assert!(rt; link.written().ends_with(said));

    let mut silent = link_of(alloc, b"", b"", Vec::new(alloc))?;
    let (status, printed) = run(&rt, alloc, "a worker 1 echo --tries 1", b"", &mut silent)?;
    assert!(rt; status == 8 && printed.as_slice() == b"fault no-answer 0\n".as_slice());
    Ok(())
}

#[test]
fn other_words_are_refused(rt: HostRuntime) -> Result<(), Fail> {
    let alloc = rt.alloc();
    let refused = [
        "",
        "a client 1",
        "--a client 1 echo",
        "a client 3 echo",
        "a client 1 echo --count 1",
        "a client 1 echo --tries 0",
        "a client 1 echo --tries 2 --tries 2",
        "a client 1 echo --wait=3",
        "a worker 1 echo --parts 1",
        "a worker 2 echo --count 0",
        "a worker 2 echo --parts 101",
        "a broker 1 echo",
    ];
    for text in refused {
        let mut link = link_of(alloc, b"", b"", Vec::new(alloc))?;
        let (status, printed) = run(&rt, alloc, text, b"hi", &mut link)?;
        assert!(rt; status == 1 && printed.as_slice() == b"fault words\n".as_slice());
    }
    Ok(())
}
