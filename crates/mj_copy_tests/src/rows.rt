use super::tests::{
    BASE, BASE_1, COMMANDS, HEADER_1, SEND_0, SEND_2, joined, run, shipped, whole_copy,
};
use std::test::Fail;

const HAVE_0: &[u8; 11] = b"\0\x09H\0\0\0\0\0\0\0\0";

const HAVE_1: &[u8; 11] = b"\0\x09H\0\0\0\0\0\0\0\x01";

const HAVE_2: &[u8; 11] = b"\0\x09H\0\0\0\0\0\0\0\x02";

const HAVE_3: &[u8; 11] = b"\0\x09H\0\0\0\0\0\0\0\x03";

#[test]
fn three_commands_are_shipped(rt: HostRuntime) -> Result<(), Fail> {
    let alloc = rt.alloc();
    let file = joined(alloc, &[HEADER_1.as_slice(), COMMANDS.as_slice()])?;
    let pieces = [
        HAVE_0.as_slice(),
        HAVE_1.as_slice(),
        HAVE_2.as_slice(),
        HAVE_3.as_slice(),
    ];
    let made = run(&rt, rt.alloc(), "f ship a", true, file.as_slice(), &pieces)?;
    assert!(rt; made.status == 0 && made.printed.as_slice() == b"done 3\n".as_slice());
    assert!(rt; made.written.as_slice() == shipped(alloc)?.as_slice());
    assert!(rt; made.file.as_slice() == file.as_slice());
    Ok(())
}

/// A command that is there already is acknowledged again; one that is too far on ends the link.
#[test]
fn one_command_is_followed(rt: HostRuntime) -> Result<(), Fail> {
    let alloc = rt.alloc();
    let pieces = [
        BASE.as_slice(),
        SEND_0.as_slice(),
        SEND_0.as_slice(),
        SEND_2.as_slice(),
    ];
    let made = run(&rt, rt.alloc(), "f follow a", false, b"", &pieces)?;
    assert!(rt; made.status == 8 && made.printed.as_slice() == b"fault no-answer 1\n".as_slice());
    let haves = [HAVE_0.as_slice(), HAVE_1.as_slice(), HAVE_1.as_slice()];
    assert!(rt; made.written.as_slice() == joined(alloc, &haves)?.as_slice());
    assert!(rt; made.file.len() == 52);
    assert!(rt; made.file.as_slice().starts_with(BASE_1.as_slice()));
    Ok(())
}

#[test]
fn a_file_with_another_base_is_refused(rt: HostRuntime) -> Result<(), Fail> {
    let file = b"MJTSTOR2\0\0\0\0\0\0\0\x02\0".as_slice();
    let made = run(
        &rt,
        rt.alloc(),
        "f follow a",
        false,
        file,
        &[BASE.as_slice()],
    )?;
    assert!(rt; made.status == 3 && made.printed.as_slice() == b"fault store base 2\n".as_slice());
    assert!(rt; made.file.as_slice() == file && made.written.is_empty());
    Ok(())
}

#[test]
fn all_is_followed_in_one_piece(rt: HostRuntime) -> Result<(), Fail> {
    let alloc = rt.alloc();
    let all = shipped(alloc)?;
    let made = run(&rt, rt.alloc(), "f follow a", false, b"", &[all.as_slice()])?;
    assert!(rt; made.status == 0 && made.printed.as_slice() == b"done 3\n".as_slice());
    assert!(rt; made.file.as_slice() == whole_copy(alloc)?.as_slice());
    Ok(())
}

const REFUSED_WORDS: [&str; 9] = [
    "",
    "f",
    "f follow",
    "f ship",
    "- follow a",
    "--f follow a",
    "f follow --a",
    "f follow a --tries 0",
    "f follow a --tries 101",
];

#[test]
fn other_words_are_refused(rt: HostRuntime) -> Result<(), Fail> {
    for words in REFUSED_WORDS {
        let made = run(&rt, rt.alloc(), words, false, b"", &[])?;
        assert!(rt; made.status == 1, "{words}");
        assert!(rt; made.printed.as_slice() == b"fault words\n".as_slice());
        assert!(rt; made.file.is_empty() && made.written.is_empty());
    }
    Ok(())
}

/// A payload that is no command, and one that is unlawful, end the link, and nothing is appended.
#[test]
fn what_is_no_lawful_command_is_refused(rt: HostRuntime) -> Result<(), Fail> {
    let sends = [
        b"\0\x0aS\0\0\0\0\0\0\0\0x".as_slice(),
        b"\0\x12S\0\0\0\0\0\0\0\0\x43\0\0\0\0\0\0\0\x01".as_slice(),
    ];
    for send in sends {
        let made = run(
            &rt,
            rt.alloc(),
            "f follow a --tries 1",
            false,
            b"",
            &[BASE.as_slice(), send],
        )?;
        assert!(rt; made.status == 8 && made.file.len() == 17);
        assert!(rt; made.printed.as_slice() == b"fault no-answer 0\n".as_slice());
    }
    Ok(())
}

/// Eighteen zeros are no store; nothing is said on the link.
#[test]
fn what_is_no_store_is_refused(rt: HostRuntime) -> Result<(), Fail> {
    let made = run(&rt, rt.alloc(), "f ship a", true, &[0; 18], &[])?;
    assert!(rt; made.status == 3 && made.written.is_empty());
    assert!(rt; made.printed.as_slice() == b"fault store not-a-store\n".as_slice());
    Ok(())
}
