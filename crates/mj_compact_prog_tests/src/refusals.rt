use super::tests::{Outcome, no_stops, run, run_with, two_tickets};
use std::alloc::Global;
use std::test::Fail;

/// A base of 2^61, and behind it an accept with that number.
const GREATEST: &[u8; 52] =
    b"MJTSTOR2\x20\0\0\0\0\0\0\0\x01\0\0\0\x1e\x41\xe5\x6a\x5d\x40\x28\xbd\x86\x53\xa0\0\0\0\0\0\0\0\x05later\0\x01\0\0\0\x01p\0";

const REFUSED_WORDS: [&str; 11] = [
    "",
    "a",
    "a compact",
    "a compact a",
    "a compact ",
    " compact b",
    "- compact b",
    "a compact -",
    "--a compact b",
    "a compact --b",
    "a compact b c",
];

#[test]
fn other_words_are_refused(rt: HostRuntime) -> Result<(), Fail> {
    let alloc = rt.alloc();
    for words in REFUSED_WORDS {
        let refused = run_with(alloc, words, b"", b"", no_stops(alloc))?;
        assert!(rt; refused.status == 1, "{words}");
        assert!(rt; refused.printed.as_slice() == b"fault words\n".as_slice());
        assert!(rt; refused.old.is_empty() && refused.new.is_empty());
    }
    Ok(())
}

/// Whether a run over an old file of these bytes is refused with this line, and neither file is written.
fn is_refused(alloc: Global, old: &[u8], line: &[u8]) -> Result<bool, Fail> {
    let refused = run(alloc, old, b"")?;
    Ok(
        refused.status == 3
            && refused.printed.as_slice() == line
            && refused.old.as_slice() == old
            && refused.new.is_empty(),
    )
}

#[test]
fn an_old_file_is_refused(rt: HostRuntime) -> Result<(), Fail> {
    let alloc = rt.alloc();
    let rows = [
        ([0; 18].as_slice(), b"fault store not-a-store\n".as_slice()),
        (
            b"MJTSTOR2\0\0\0\0\0\0\0\0\0\0".as_slice(),
            b"fault store not-a-store\n".as_slice(),
        ),
        (
            b"MJTSTOR3\0\0\0\0\0\0\0\0\0\0".as_slice(),
            b"fault store version 3\n".as_slice(),
        ),
        (
            b"MJTSTOR1\0\0\0\0\0\0\0\0\x01\0\0\0\x05\x41".as_slice(),
            b"fault store damaged 16\n".as_slice(),
        ),
        (GREATEST.as_slice(), b"fault store numbers\n".as_slice()),
    ];
    for (old, line) in rows {
        assert!(rt; is_refused(alloc, old, line)?);
    }
    Ok(())
}

fn over_one_byte(alloc: Global) -> Result<Outcome, Fail> {
    run(alloc, two_tickets(alloc)?.as_slice(), &[0])
}

#[test]
fn a_new_file_has_to_be_empty(rt: HostRuntime) -> Result<(), Fail> {
    let refused = over_one_byte(rt.alloc())?;
    assert!(rt; refused.status == 3);
    assert!(rt; refused.printed.as_slice() == b"fault store not-empty\n".as_slice());
    assert!(rt; refused.new.as_slice() == [0].as_slice());
    Ok(())
}
