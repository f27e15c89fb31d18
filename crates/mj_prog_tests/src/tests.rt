use super::runs::{add_line, first_wrong_call};
use mj_base::{MemorySink, MemorySource, Octets};
use mj_disk::MemoryDisk;
use mj_prog::tool;
use std::alloc::{AllocError, Global};
use std::test::Fail;

/// What a call with these words prints over this script, and its status.
pub(crate) fn printed(
    alloc: Global,
    words: &[&str],
    script: &[u8],
    failing_reads: &[u64],
    failing_writes: &[u64],
) -> Result<(Vec<u8>, u8), Fail> {
    let mut octets = Octets::new(alloc);
    octets.push_all(script)?;
    let mut source = MemorySource::new(octets, failing_reads.to_vec(alloc)?);
    let mut sink = MemorySink::new(alloc, failing_writes.to_vec(alloc)?);
    let mut disk = MemoryDisk::new(alloc, Octets::new(alloc), 0, Vec::new(alloc), None)?;
    let status = tool(
        alloc,
        &owned(alloc, words)?,
        &mut source,
        &mut disk,
        &mut sink,
    );
    Ok((sink.written().to_vec(alloc)?, status))
}

pub(crate) fn owned(alloc: Global, words: &[&str]) -> Result<Vec<String>, AllocError> {
    let mut all = Vec::new(alloc);
    for word in words {
        all.push(String::from_str(alloc, word)?)?;
    }
    Ok(all)
}

const LINES: &str = "\
- replay: : 0 done 0
- replay: stop: 0 done 0
- replay: stop|no line of a script: 0 done 0
- replay: |: 0 done 0
- replay: #: 0 done 0
- replay: # open 64||#|: 0 done 0
- replay: # a comment|||opne 0|: 2 fault line 4
- replay: |#|close 0||x: 2 fault line 5
- replay:    |: 2 fault line 1
- replay:  # a comment|: 2 fault line 1
- replay: stop |: 2 fault line 1
- replay: open|: 2 fault line 1
- replay: open 64|: 2 fault line 1
- replay: open 00|: 2 fault line 1
- replay: open  0|: 2 fault line 1
- replay: open 0 |: 2 fault line 1
- replay: open 0\r|: 2 fault line 1
- replay: opne 0|: 2 fault line 1
- replay: bytes 0 0|: 2 fault line 1
- replay: bytes 0 |: 2 fault line 1
- replay: bytes 0|: 2 fault line 1
- replay: bytes 64 00|: 2 fault line 1
- replay: bytes 0 0g|: 2 fault line 1
- replay: bytes 63 aF|: 0 done 1
- replay: sent 0|: 0 done 1
- replay: sent 64|: 2 fault line 1
- replay: close 0|: 0 done 1
- replay: close 64|: 2 fault line 1
- replay: close 63|sent 63|# both|: 0 done 2
- replay: tick 5|stop|junk|: 0 done 1
- replay: tick 0||tick 1000000000000000: 0 done 2
- replay: tick 1000000000000001|: 2 fault line 1
- replay: tick 05|: 2 fault line 1
- replay: tick -5|: 2 fault line 1
- replay: tick 99999999999999999999|: 2 fault line 1
";

#[test]
fn lines_are_lawful_or_named_by_their_number(rt: HostRuntime) -> Result<(), Fail> {
    assert!(rt; first_wrong_call(rt.alloc(), LINES)? == None);
    Ok(())
}

#[test]
fn a_line_has_at_most_131_081_bytes(rt: HostRuntime) -> Result<(), Fail> {
    for (front, byte, size, wanted, wanted_status) in [
        ("#", b'x', 131_081, "done 0\n", 0),
        ("#", b'x', 131_082, "fault line 1\n", 2),
        ("bytes 63 ", b'0', 131_081, "done 1\n", 0),
        ("bytes 0 ", b'0', 131_082, "fault line 1\n", 2),
    ] {
        let mut script = Vec::from_slice(rt.alloc(), front.as_bytes())?;
        script.resize(size, byte)?;
        script.push(b'\n')?;
        let (text, status) = printed(rt.alloc(), &["-", "replay"], script.as_slice(), &[], &[])?;
        assert!(rt; text.as_slice() == wanted.as_bytes());
        assert!(rt; status == wanted_status);
    }
    Ok(())
}

const OPTIONS: &str = "\
- replay --lanes 1: close 1|: 2 fault line 1
- replay --lanes 1: close 0|: 0 done 1
- replay --lanes 2: close 1|: 0 done 1
- replay --lanes 2: |open 2|: 2 fault line 2
- replay --lanes 64: close 63|: 0 done 1
- replay --seed SEED: close 63|: 0 done 1
- replay --seed SEED --lanes 2: close 1|: 0 done 1
- replay --lanes 2 --seed SEED: close 1|: 0 done 1
- replay --lanes 2 --seed SEED: close 2|: 2 fault line 1
";

#[test]
fn options_say_how_many_lanes_there_are(rt: HostRuntime) -> Result<(), Fail> {
    assert!(rt; first_wrong_call(rt.alloc(), OPTIONS)? == None);
    Ok(())
}

#[test]
fn lane_1_of_two_opens(rt: HostRuntime) -> Result<(), Fail> {
    let words = ["-", "replay", "--lanes", "2"];
    let (text, status) = printed(rt.alloc(), &words, b"open 1\n", &[], &[])?;
    let mut wanted = Vec::new(rt.alloc());
    add_line(&mut wanted, "put 1 GREETING")?;
    add_line(&mut wanted, "done 1")?;
    assert!(rt; text.as_slice() == wanted.as_slice());
    assert!(rt; status == 0);
    Ok(())
}

const TOOLS: &str = "\
help: stop|: 0 commands help replay tickets show gen broker client worker compact bridge audit ship follow
- show: : 0 done 0
";

#[test]
fn tools_need_no_broker(rt: HostRuntime) -> Result<(), Fail> {
    assert!(rt; first_wrong_call(rt.alloc(), TOOLS)? == None);
    Ok(())
}

const FAULTY_WORDS: &str = "\
: stop|: 1 fault words
-: stop|: 1 fault words
- show x: stop|: 1 fault words
a show: stop|: 1 fault words
show -: stop|: 1 fault words
help x: stop|: 1 fault words
- help: stop|: 1 fault words
- replay x: stop|: 1 fault words
- replay --: stop|: 1 fault words
--tickets replay: stop|: 1 fault words
replay -: stop|: 1 fault words
--lanes 2 - replay: stop|: 1 fault words
- replay --lanes: stop|: 1 fault words
- replay --lanes 0: stop|: 1 fault words
- replay --lanes 65: stop|: 1 fault words
- replay --lanes 02: stop|: 1 fault words
- replay --lanes '': stop|: 1 fault words
- replay --lanes=2: stop|: 1 fault words
- replay --lanes 2 x: stop|: 1 fault words
- replay --lanes 2 --lanes 3: stop|: 1 fault words
- replay --lanes 2 --seed SEED --lanes 2: stop|: 1 fault words
- replay --lane 2: stop|: 1 fault words
- replay --seed: stop|: 1 fault words
- replay --seed 00010203040506070809: stop|: 1 fault words
- replay --seed 000102030405060708090a0b0c0d0e0f101112131415161718191a1b1c1d1e1: stop|: 1 fault words
- replay --seed 000102030405060708090a0b0c0d0e0f101112131415161718191a1b1c1d1e1g: stop|: 1 fault words
";

#[test]
fn other_words_are_faulty(rt: HostRuntime) -> Result<(), Fail> {
    assert!(rt; first_wrong_call(rt.alloc(), FAULTY_WORDS)? == None);
    Ok(())
}

#[test]
fn a_failing_read_or_write_ends_the_run(rt: HostRuntime) -> Result<(), Fail> {
    for (script, reads, writes, wanted, wanted_status) in [
        ("stop\n", [0], [9], "fault read\n", 6),
        ("stop\n", [9], [0], "", 7),
        ("stop\n", [0], [0], "", 6),
        ("x\n", [9], [0], "", 2),
    ] {
        let words = ["-", "replay"];
        let (text, status) = printed(rt.alloc(), &words, script.as_bytes(), &reads, &writes)?;
        assert!(rt; text.as_slice() == wanted.as_bytes());
        assert!(rt; status == wanted_status);
    }
    Ok(())
}
