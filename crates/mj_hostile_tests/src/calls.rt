use super::runs::{Ended, Failing, nothing, run};
use std::alloc::Global;
use std::test::Fail;

/// A client asks that a request is kept, and a worker for `echo` gets it and answers; then the reply is fetched and the ticket
/// closed.
const SESSION: &[u8] = b"open 0\n\
bytes 0 ff00000000000000007f03004e554c4c000000000000000000000000000000000000000000000000000000000000000000000000000000000000000000000000\
041c0552454144590b536f636b65742d54797065000000064445414c4552\n\
bytes 0 010001064d4450433031010f746974616e69632e7265717565737401046563686f00026869\n\
open 1\n\
bytes 1 ff00000000000000007f03004e554c4c000000000000000000000000000000000000000000000000000000000000000000000000000000000000000000000000\
041c0552454144590b536f636b65742d54797065000000064445414c4552\n\
bytes 1 010001064d445057303101010100046563686f\n\
bytes 1 010001064d4450573031010103010954000000000000000101000003686921\n\
bytes 0 010001064d4450433031010d746974616e69632e7265706c79002465353661356434302d323862642d383635332d383030302d303030303030303030303031\n\
bytes 0 010001064d4450433031010d746974616e69632e636c6f7365002465353661356434302d323862642d383635332d383030302d303030303030303030303031\n\
tick 60000\n";

/// Which kind of call fails.
#[derive(Clone, Copy)]
enum Kind {
    Read,
    Write,
    Disk,
}

fn failing_at(alloc: Global, kind: Kind, call: u64) -> Result<Failing, Fail> {
    let one = vec![in alloc; call]?;
    let all = nothing(alloc);
    Ok(match kind {
        Kind::Read => Failing { reads: one, ..all },
        Kind::Write => Failing { writes: one, ..all },
        Kind::Disk => Failing { calls: one, ..all },
    })
}

fn ended_with(alloc: Global, kind: Kind, call: u64) -> Result<Ended, Fail> {
    run(
        alloc,
        &["f", "replay"],
        SESSION,
        b"",
        failing_at(alloc, kind, call)?,
    )
}

/// Whether the text is a front of that of the run in which nothing fails, but for its last line.
fn is_front(whole: &[u8], text: &[u8], last: &[u8]) -> bool {
    match text.strip_suffix(last) {
        Some(front) => whole.starts_with(front),
        None => false,
    }
}

/// Whether the run with this failing call ends as it has to: a failed read ends it with what was read before; a failed write cuts
/// the text; a failed call of the disk costs the opening, or what was asked.
fn ends_so(alloc: Global, whole: &[u8], kind: Kind, call: u64) -> Result<bool, Fail> {
    let ended = ended_with(alloc, kind, call)?;
    let text = ended.printed.as_slice();
    Ok(match (kind, ended.status) {
        (_, 0) => text.ends_with(b"done 10\n"),
        (Kind::Read, 6) => is_front(whole, text, b"fault read\n"),
        (Kind::Write, 7) => whole.starts_with(text),
        (Kind::Disk, 5) => text == b"fault disk\n".as_slice(),
        _ => false,
    })
}

#[test]
fn each_read_write_and_call_of_the_disk_fails_in_turn(rt: HostRuntime) -> Result<(), Fail> {
    let alloc = rt.alloc();
    let whole = run(alloc, &["f", "replay"], SESSION, b"", nothing(alloc))?;
    assert!(rt; whole.status == 0 && whole.printed.as_slice().ends_with(b"done 10\n"));
    for call in 0..24_u64 {
        for kind in [Kind::Read, Kind::Write, Kind::Disk] {
            assert!(rt;
                ends_so(alloc, whole.printed.as_slice(), kind, call)?,
                "{call}"
            );
        }
    }
    Ok(())
}
