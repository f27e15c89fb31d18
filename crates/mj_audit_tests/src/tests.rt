use super::transcripts::{LIBZMQ, QUESTION, ROUTED, ROW};
use mj_audit_prog::audit;
use mj_base::{MemorySink, MemorySource, Octets};
use std::alloc::{AllocError, Global};
use std::test::Fail;

/// What is done to a transcript. Lines are counted from 1.
#[derive(Clone, Copy)]
enum Edit {
    Nothing,
    Without(u64),
    Twice(u64),
    /// The line is exchanged with the next one.
    Exchanged(u64),
}

use Edit::{Exchanged, Nothing, Twice, Without};

/// The status over this text, with the reads and writes of these numbers failing, and what is printed.
fn audited(
    alloc: Global,
    text: &[u8],
    reads: Vec<u64>,
    writes: Vec<u64>,
) -> Result<(u8, Octets), Fail> {
    let mut src = MemorySource::new(Octets::copy_of(alloc, text)?, reads);
    let mut out = MemorySink::new(alloc, writes);
    let status = audit(alloc, &mut src, &mut out);
    Ok((status, Octets::copy_of(alloc, out.written())?))
}

fn put_line(text: &mut Vec<u8>, line: &str) -> Result<(), AllocError> {
    text.extend_from_slice(line.as_bytes())?;
    text.push(b'\n')?;
    Ok(())
}

/// The text behind the edit, each line with its newline.
fn edited(alloc: Global, transcript: &str, edit: Edit) -> Result<Vec<u8>, Fail> {
    let mut text = Vec::new(alloc);
    let mut number = 0_u64;
    let mut held_back = Vec::new(alloc);
    for line in transcript.split('\n') {
        number = number.saturating_add(1);
        match edit {
            Without(at) if at == number => {}
            Twice(at) if at == number => {
                put_line(&mut text, line)?;
                put_line(&mut text, line)?;
            }
            Exchanged(at) if at == number => put_line(&mut held_back, line)?,
            Exchanged(at) if at.saturating_add(1) == number => {
                put_line(&mut text, line)?;
                text.extend_from_slice(held_back.as_slice())?;
            }
            _ => put_line(&mut text, line)?,
        }
    }
    Ok(text)
}

/// The first edit of these whose verdict is another one, by its place.
fn first_wrong(
    alloc: Global,
    transcript: &str,
    cases: &[(Edit, u8, &str)],
) -> Result<Option<usize>, Fail> {
    for at in 0..cases.len() {
        let (edit, wanted_status, wanted) = cases[at];
        let text = edited(alloc, transcript, edit)?;
        let (status, printed) = audited(alloc, text.as_slice(), Vec::new(alloc), Vec::new(alloc))?;
        if status != wanted_status || printed.as_slice() != wanted.as_bytes() {
            return Ok(Some(at));
        }
    }
    Ok(None)
}

#[test]
fn a_request_is_answered_kept_or_answered_wrongly(rt: HostRuntime) -> Result<(), Fail> {
    let cases = [
        (Nothing, 0, "held 11\n"),
        (Without(9), 12, "broken waiting 9\n"),
        (Without(10), 12, "broken owner 10\n"),
        (Without(11), 0, "held 10\n"),
        (Twice(11), 12, "broken owner 12\n"),
        (Exchanged(10), 12, "broken owner 10\n"),
    ];
    assert!(rt; first_wrong(rt.alloc(), ROW, &cases)? == None);
    let other = edited(rt.alloc(), ROW, Nothing)?;
    let (Some(front), rest) = (other.as_slice().strip_suffix(b"41\n"), b"42\n") else {
        return Err("the reply's body is another one".into());
    };
    let mut text = front.to_vec(rt.alloc())?;
    text.extend_from_slice(rest)?;
    let (status, printed) = audited(
        rt.alloc(),
        text.as_slice(),
        Vec::new(rt.alloc()),
        Vec::new(rt.alloc()),
    )?;
    assert!(rt; status == 12 && printed.as_slice() == b"broken owner 11\n".as_slice());
    Ok(())
}

#[test]
fn a_line_is_left_out(rt: HostRuntime) -> Result<(), Fail> {
    let cases = [
        (Nothing, 0, "held 22\n"),
        (Without(1), 2, "fault line 1\n"),
        (Without(2), 12, "broken wire 3\n"),
        (Without(3), 12, "broken busy 15\n"),
        (Without(12), 12, "broken wire 20\n"),
        (Without(13), 12, "broken busy 15\n"),
        (Without(14), 12, "broken busy 17\n"),
        (Without(15), 12, "broken owner 15\n"),
        (Without(16), 12, "broken waiting 16\n"),
        (Without(17), 12, "broken owner 17\n"),
        (Without(18), 12, "broken waiting 18\n"),
        (Without(19), 12, "broken owner 21\n"),
        (Without(20), 12, "broken owner 20\n"),
        (Without(21), 0, "held 21\n"),
        (Without(22), 12, "broken waiting 22\n"),
    ];
    assert!(rt; first_wrong(rt.alloc(), ROUTED, &cases)? == None);
    Ok(())
}

#[test]
fn a_line_is_doubled(rt: HostRuntime) -> Result<(), Fail> {
    let cases = [
        (Twice(1), 2, "fault line 2\n"),
        (Twice(13), 0, "held 23\n"),
        (Twice(15), 12, "broken waiting 16\n"),
        (Twice(16), 12, "broken owner 17\n"),
        (Twice(19), 0, "held 23\n"),
        (Twice(20), 12, "broken waiting 21\n"),
        (Twice(21), 12, "broken owner 22\n"),
        (Twice(22), 12, "broken owner 23\n"),
    ];
    assert!(rt; first_wrong(rt.alloc(), ROUTED, &cases)? == None);
    Ok(())
}

#[test]
fn a_line_is_exchanged_with_the_next_one(rt: HostRuntime) -> Result<(), Fail> {
    let cases = [
        (Exchanged(1), 2, "fault line 1\n"),
        (Exchanged(3), 0, "held 22\n"),
        (Exchanged(13), 0, "held 22\n"),
        (Exchanged(15), 12, "broken owner 15\n"),
        (Exchanged(16), 12, "broken waiting 16\n"),
        (Exchanged(19), 0, "held 22\n"),
        (Exchanged(20), 12, "broken owner 20\n"),
        (Exchanged(21), 0, "held 22\n"),
    ];
    assert!(rt; first_wrong(rt.alloc(), ROUTED, &cases)? == None);
    Ok(())
}

#[test]
fn the_brokers_own_names_are_passed_over(rt: HostRuntime) -> Result<(), Fail> {
    let cases = [
        (Nothing, 0, "held 6\n"),
        (Without(4), 12, "broken wire 5\n"),
        (Without(5), 0, "held 5\n"),
        (Without(6), 0, "held 5\n"),
        (Twice(3), 0, "held 7\n"),
        (Twice(6), 0, "held 7\n"),
        (Exchanged(5), 0, "held 6\n"),
    ];
    assert!(rt; first_wrong(rt.alloc(), QUESTION, &cases)? == None);
    Ok(())
}

/// The client that waits for its third reply got two before; its request is line 37, the worker's reply line 39.
#[test]
fn a_broker_over_libzmq_is_held(rt: HostRuntime) -> Result<(), Fail> {
    let cases = [
        (Nothing, 0, "held 43\n"),
        (Without(39), 12, "broken owner 41\n"),
        (Without(38), 12, "broken waiting 38\n"),
        (Twice(42), 12, "broken owner 43\n"),
    ];
    assert!(rt; first_wrong(rt.alloc(), LIBZMQ, &cases)? == None);
    Ok(())
}

#[test]
fn lines_that_say_nothing_and_lines_of_no_form(rt: HostRuntime) -> Result<(), Fail> {
    let cases = [(Nothing, 0, "held 3\n"), (Without(1), 0, "held 2\n")];
    assert!(rt; first_wrong(rt.alloc(), "# nothing\n\nopen 63 aa", &cases)? == None);
    for text in [
        "open 64 aa",
        "open 0",
        "open 0 a",
        "open  0 aa",
        "in 0 aa",
        "close 0",
        "lapse 0",
        "stop",
        " ",
        "open 0 aa ",
    ] {
        assert!(rt;
            first_wrong(rt.alloc(), text, &[(Nothing, 2, "fault line 1\n")])? == None,
            "{text}"
        );
    }
    Ok(())
}

#[test]
fn an_empty_transcript_is_held(rt: HostRuntime) -> Result<(), Fail> {
    let alloc = rt.alloc();
    let (status, printed) = audited(alloc, b"", Vec::new(alloc), Vec::new(alloc))?;
    assert!(rt; status == 0 && printed.as_slice() == b"held 0\n".as_slice());

    // The last line may lack its newline.
    let (status, printed) = audited(alloc, b"open 0 aa", Vec::new(alloc), Vec::new(alloc))?;
    assert!(rt; status == 0 && printed.as_slice() == b"held 1\n".as_slice());
    Ok(())
}

/// The first read fails, then the second; and the one write.
#[test]
fn reads_and_writes_fail(rt: HostRuntime) -> Result<(), Fail> {
    let alloc = rt.alloc();
    for read in 0..2_u64 {
        let (status, printed) = audited(
            alloc,
            ROW.as_bytes(),
            vec![in alloc; read]?,
            Vec::new(alloc),
        )?;
        assert!(rt; status == 6 && printed.as_slice() == b"fault read\n".as_slice());
    }
    let (status, printed) = audited(
        alloc,
        ROW.as_bytes(),
        Vec::new(alloc),
        vec![in alloc; 0_u64]?,
    )?;
    assert!(rt; status == 7 && b"held 11\n".as_slice().starts_with(printed.as_slice()));
    let (status, printed) = audited(alloc, b"x", Vec::new(alloc), vec![in alloc; 0_u64]?)?;
    assert!(rt; status == 2 && b"fault line 1\n".as_slice().starts_with(printed.as_slice()));
    Ok(())
}
