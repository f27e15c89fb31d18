use super::scripts::{REPLY, REQUEST, link_of, run, words_of};
use mj_base::MemorySink;
use mj_bridge_prog::bridge;
use std::test::Fail;

const WORDS: &str = "a bridge echo b sum --count 1";

/// What is printed where the near link's call of this number fails: the writes 0 and 2 to 4, and the read 1.
#[test]
fn each_call_of_the_near_link_fails(rt: HostRuntime) -> Result<(), Fail> {
    let alloc = rt.alloc();
    for call in 0..5_u64 {
        let mut near = link_of(alloc, REQUEST, vec![in alloc; call]?)?;
        let mut far = link_of(alloc, REPLY, Vec::new(alloc))?;
        let (status, printed) = run(&rt, alloc, WORDS, &mut near, &mut far)?;
        if call == 1 {
            assert!(rt; status == 6 && printed.as_slice() == b"fault read\n".as_slice());
        } else {
            assert!(rt; status == 7 && printed.is_empty());
        }
    }
    Ok(())
}

/// The writes 0 and 2, and the read 1.
#[test]
fn each_call_of_the_far_link_fails(rt: HostRuntime) -> Result<(), Fail> {
    let alloc = rt.alloc();
    for call in 0..3_u64 {
        let mut near = link_of(alloc, REQUEST, Vec::new(alloc))?;
        let mut far = link_of(alloc, REPLY, vec![in alloc; call]?)?;
        let (status, printed) = run(&rt, alloc, WORDS, &mut near, &mut far)?;
        if call == 1 {
            assert!(rt; status == 6 && printed.as_slice() == b"fault read\n".as_slice());
        } else {
            assert!(rt; status == 7 && printed.is_empty());
        }
    }
    Ok(())
}

#[test]
fn the_sink_fails(rt: HostRuntime) -> Result<(), Fail> {
    let alloc = rt.alloc();
    let words = words_of(alloc, WORDS)?;
    let mut near = link_of(alloc, REQUEST, Vec::new(alloc))?;
    let mut far = link_of(alloc, REPLY, Vec::new(alloc))?;
    let mut out = MemorySink::new(alloc, vec![in alloc; 0]?);
    assert!(rt; bridge(&rt, alloc, words.as_slice(), &mut near, &mut far, &mut out) == 7);
    assert!(rt; b"bridged 1\n".as_slice().starts_with(out.written()));
    Ok(())
}
