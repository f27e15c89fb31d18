use super::runs::{Ended, Failing, nothing, run};
use std::alloc::Global;
use std::test::Fail;

/// A peer asks twice that a request for `later` is kept.
const TWICE: &[u8] = b"open 0\n\
bytes 0 ff00000000000000007f03004e554c4c000000000000000000000000000000000000000000000000000000000000000000000000000000000000000000000000\
041c0552454144590b536f636b65742d54797065000000064445414c4552\n\
bytes 0 010001064d4450433031010f746974616e69632e7265717565737401056c617465720001\
31\n\
bytes 0 010001064d4450433031010f746974616e69632e7265717565737401056c617465720001\
32\n";

/// The status of `tickets` over this file, and what it prints.
fn listed(alloc: Global, file: &[u8]) -> Result<Ended, Fail> {
    run(alloc, &["f", "tickets"], b"", file, nothing(alloc))
}

/// How many lines there are.
fn lines_in(text: &[u8]) -> usize {
    text.iter().filter(|octet| **octet == b'\n').count()
}

/// The file of two tickets has 87 bytes: its header, the gates at 16, 51 and 86, and a record of 34 bytes behind each of the
/// first two.
fn is_listed_so(alloc: Global, file: &[u8], size: usize) -> Result<bool, Fail> {
    let ended = listed(alloc, file.get(..size).unwrap_or(b""))?;
    let printed = ended.printed.as_slice();
    Ok(match size {
        0..=17 => ended.status == 0 && printed == b"done 0\n".as_slice(),
        18..=51 => ended.status == 3 && printed == b"fault store damaged 16\n".as_slice(),
        52..=86 => ended.status == 3 && printed == b"fault store damaged 51\n".as_slice(),
        _ => ended.status == 0 && printed.ends_with(b"done 2\n") && lines_in(printed) == 3,
    })
}

#[test]
fn a_file_of_two_tickets_is_cut_at_each_length(rt: HostRuntime) -> Result<(), Fail> {
    let alloc = rt.alloc();
    let ended = run(alloc, &["f", "replay"], TWICE, b"", nothing(alloc))?;
    let file = ended.disk.as_slice();
    assert!(rt; ended.status == 0 && file.len() == 87);
    for size in 0..88_usize {
        assert!(rt; is_listed_so(alloc, file, size)?, "{size}");
    }
    Ok(())
}

/// How many tickets the file has, by the lines of `tickets`.
fn tickets_in(alloc: Global, file: &[u8]) -> Result<Option<usize>, Fail> {
    let ended = listed(alloc, file)?;
    if ended.status != 0 {
        return Ok(None);
    }
    Ok(Some(lines_in(ended.printed.as_slice()).saturating_sub(1)))
}

/// Whether each image that a stop here may leave has the tickets that were acknowledged, and one more at most. Behind the greeting
/// and READY each line that is put is an acknowledgement where it ends in a ticket's id, and else a refusal.
fn keeps_what_it_said(alloc: Global, stop: u64) -> Result<bool, Fail> {
    let failing = Failing {
        stop: Some(stop),
        ..nothing(alloc)
    };
    let ended = run(alloc, &["f", "replay"], TWICE, b"", failing)?;
    let said = ended
        .printed
        .as_slice()
        .split(|octet| *octet == b'\n')
        .filter(|line| line.len() > 100 && line.starts_with(b"put 0 0100"))
        .count();
    for which in 0..3_u32 {
        let image = ended.disk.image(alloc, which)?;
        match tickets_in(alloc, image.as_slice())? {
            Some(count) if said <= count && count <= said.saturating_add(1) => {}
            _ => return Ok(false),
        }
    }
    Ok(true)
}

#[test]
fn a_stop_at_each_call_loses_nothing_that_was_acknowledged(rt: HostRuntime) -> Result<(), Fail> {
    for stop in 0..24_u64 {
        assert!(rt; keeps_what_it_said(rt.alloc(), stop)?, "{stop}");
    }
    Ok(())
}
