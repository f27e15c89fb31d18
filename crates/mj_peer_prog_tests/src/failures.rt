use super::tests::{ANSWER, REQUEST, ROUTER, link_of, run, words_of};
use mj_base::{MemorySink, MemorySource, Octets};
use mj_peer_prog::peer;
use std::test::Fail;

/// What a client prints whose link's call of this number fails: the writes 0 and 2, and the read 1.
#[test]
fn each_call_of_a_clients_link_fails(rt: HostRuntime) -> Result<(), Fail> {
    let alloc = rt.alloc();
    for call in 0..3_u64 {
        let mut link = link_of(alloc, ROUTER, ANSWER, vec![in alloc; call]?)?;
        let (status, printed) = run(&rt, alloc, "a client 1 echo", b"hi", &mut link)?;
        if call == 1 {
            assert!(rt; status == 6 && printed.as_slice() == b"fault read\n".as_slice());
        } else {
            assert!(rt; status == 7 && printed.is_empty());
        }
    }
    Ok(())
}

/// The writes 0 and 2 to 4, and the read 1.
#[test]
fn each_call_of_a_workers_link_fails(rt: HostRuntime) -> Result<(), Fail> {
    let alloc = rt.alloc();
    for call in 0..5_u64 {
        let mut link = link_of(alloc, ROUTER, REQUEST, vec![in alloc; call]?)?;
        let (status, printed) = run(&rt, alloc, "a worker 1 echo --count 1", b"", &mut link)?;
        if call == 1 {
            assert!(rt; status == 6 && printed.as_slice() == b"fault read\n".as_slice());
        } else {
            assert!(rt; status == 7 && printed.is_empty());
        }
    }
    Ok(())
}

#[test]
fn input_and_output_fail(rt: HostRuntime) -> Result<(), Fail> {
    let alloc = rt.alloc();
    let words = words_of(alloc, "a client 1 echo")?;
    let mut link = link_of(alloc, ROUTER, ANSWER, Vec::new(alloc))?;
    let mut src = MemorySource::new(Octets::copy_of(alloc, b"hi")?, vec![in alloc; 0]?);
    let mut out = MemorySink::new(alloc, Vec::new(alloc));
    assert!(rt; peer(&rt, alloc, words.as_slice(), &mut link, &mut src, &mut out) == 6);
    assert!(rt; out.written() == b"fault read\n".as_slice());

    for write in 0..2_u64 {
        let mut link = link_of(alloc, ROUTER, ANSWER, Vec::new(alloc))?;
        let mut src = MemorySource::new(Octets::copy_of(alloc, b"hi")?, Vec::new(alloc));
        let mut out = MemorySink::new(alloc, vec![in alloc; write]?);
        assert!(rt; peer(&rt, alloc, words.as_slice(), &mut link, &mut src, &mut out) == 7);
        assert!(rt;
            b"reply 686f\ndone 1\n"
                .as_slice()
                .starts_with(out.written())
        );
    }
    Ok(())
}
