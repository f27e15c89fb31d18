use super::tests::{
    BASE_1, BASE_2, BASE_3, CLOSE, FIRST, HEADER_1, REPLY, SECOND, file_of, run, two_kept,
    two_tickets,
};
use std::test::Fail;

const BASE_4: &[u8; 16] = b"MJTSTOR2\0\0\0\0\0\0\0\x04";

/// The accept of a third ticket.
const THIRD: &[u8; 35] =
    b"\x01\0\0\0\x1e\x41\xb8\x19\xd2\xbd\x1a\xed\x8d\xa0\x80\0\0\0\0\0\0\x03\x05later\0\x01\0\0\0\x01r";

/// The file is of either format.
#[test]
fn a_closed_ticket_leaves_seventeen_bytes(rt: HostRuntime) -> Result<(), Fail> {
    let alloc = rt.alloc();
    for header in [HEADER_1, BASE_1] {
        let old = file_of(
            alloc,
            &[
                header.as_slice(),
                FIRST.as_slice(),
                REPLY.as_slice(),
                CLOSE.as_slice(),
            ],
        )?;
        let made = run(alloc, old.as_slice(), b"")?;
        assert!(rt; made.status == 0);
        assert!(rt; made.printed.as_slice() == b"done 0\n".as_slice());
        assert!(rt; made.new.as_slice() == file_of(alloc, &[BASE_2.as_slice()])?.as_slice());
        assert!(rt; made.old.as_slice() == old.as_slice());
    }
    Ok(())
}

#[test]
fn two_open_tickets_are_kept(rt: HostRuntime) -> Result<(), Fail> {
    let alloc = rt.alloc();
    let old = two_tickets(alloc)?;
    let made = run(alloc, old.as_slice(), b"")?;
    assert!(rt; made.status == 0);
    assert!(rt; made.printed.as_slice() == b"done 2\n".as_slice());
    assert!(rt; made.new.len() == 108);
    assert!(rt; made.new.as_slice() == two_kept(alloc)?.as_slice());
    assert!(rt; made.old.as_slice() == old.as_slice());
    Ok(())
}

/// A smaller file is as small as it gets, and its next ticket has the number 3.
#[test]
fn a_smaller_file_goes_on(rt: HostRuntime) -> Result<(), Fail> {
    let alloc = rt.alloc();
    let again = run(alloc, two_kept(alloc)?.as_slice(), b"")?;
    assert!(rt; again.status == 0);
    assert!(rt; again.new.as_slice() == two_kept(alloc)?.as_slice());

    let parts = [
        FIRST.as_slice(),
        REPLY.as_slice(),
        SECOND.as_slice(),
        THIRD.as_slice(),
    ];
    let grown = file_of(
        alloc,
        &[BASE_3.as_slice(), parts[0], parts[1], parts[2], parts[3]],
    )?;
    let made = run(alloc, grown.as_slice(), b"")?;
    let wanted = file_of(
        alloc,
        &[BASE_4.as_slice(), parts[0], parts[1], parts[2], parts[3]],
    )?;
    assert!(rt; made.printed.as_slice() == b"done 3\n".as_slice());
    assert!(rt; made.new.as_slice() == wanted.as_slice());
    Ok(())
}

/// An empty old file is made, as any command over it makes it.
#[test]
fn an_empty_file_is_made_anew(rt: HostRuntime) -> Result<(), Fail> {
    let alloc = rt.alloc();
    let made = run(alloc, b"", b"")?;
    let wanted = file_of(alloc, &[BASE_1.as_slice()])?;
    assert!(rt; made.status == 0 && made.printed.as_slice() == b"done 0\n".as_slice());
    assert!(rt; made.old.as_slice() == wanted.as_slice());
    assert!(rt; made.new.as_slice() == wanted.as_slice());
    Ok(())
}
