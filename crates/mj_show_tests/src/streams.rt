use mj_base::{MemorySink, MemorySource, Octets};
use mj_show::{help, show};
use std::alloc::Global;
use std::test::Fail;

/// Greeting and READY of a DEALER, and a question to the broker itself.
const QUESTION: &[u8] = b"\xff\0\0\0\0\0\0\0\0\x7f\x03\0NULL\0\0\0\0\0\0\0\0\0\0\0\0\0\0\0\0\
\0\0\0\0\0\0\0\0\0\0\0\0\0\0\0\0\0\0\0\0\0\0\0\0\0\0\0\0\0\0\0\0\
\x04\x1c\x05READY\x0bSocket-Type\0\0\0\x06DEALER\
\x01\0\x01\x06MDPC01\x01\x0bmmi.service\0\x04echo";

/// What a DEALER of libzmq 4.3 sends: its greeting counts an empty identity and is of 3.1, and its READY has that identity.
/// Behind it stand a worker's READY and a message that is no command.
const LIBZMQ: &[u8] = b"\xff\0\0\0\0\0\0\0\x01\x7f\x03\x01NULL\0\0\0\0\0\0\0\0\0\0\0\0\0\0\0\0\
\0\0\0\0\0\0\0\0\0\0\0\0\0\0\0\0\0\0\0\0\0\0\0\0\0\0\0\0\0\0\0\0\
\x04\x29\x05READY\x0bSocket-Type\0\0\0\x06DEALER\x08Identity\0\0\0\0\
\x01\0\x01\x06MDPW01\x01\x01\x01\0\x04echo\0\x01x";

/// The status at these bytes, with the reads and writes of these numbers failing, and what is printed.
fn shown(
    alloc: Global,
    stream: &[u8],
    reads: Vec<u64>,
    writes: Vec<u64>,
) -> Result<(u8, Octets), Fail> {
    let mut src = MemorySource::new(Octets::copy_of(alloc, stream)?, reads);
    let mut out = MemorySink::new(alloc, writes);
    let status = show(alloc, &mut src, &mut out);
    Ok((status, Octets::copy_of(alloc, out.written())?))
}

#[test]
fn a_question_is_shown(rt: HostRuntime) -> Result<(), Fail> {
    let alloc = rt.alloc();
    let (status, printed) = shown(alloc, QUESTION, Vec::new(alloc), Vec::new(alloc))?;
    let lines =
        b"accepted\nready DEALER\nmessage client - 4d4450433031 6d6d692e73657276696365 6563686f\ndone 123\n";
    assert!(rt; status == 0 && printed.as_slice() == lines.as_slice());

    let (status, printed) = shown(alloc, b"", Vec::new(alloc), Vec::new(alloc))?;
    assert!(rt; status == 0 && printed.as_slice() == b"done 0\n".as_slice());
    Ok(())
}

#[test]
fn what_libzmq_sends_is_shown(rt: HostRuntime) -> Result<(), Fail> {
    let alloc = rt.alloc();
    let (status, printed) = shown(alloc, LIBZMQ, Vec::new(alloc), Vec::new(alloc))?;
    let lines =
        b"accepted\nready DEALER\nmessage worker - 4d4450573031 01 6563686f\nmessage other 78\ndone 129\n";
    assert!(rt; status == 0 && printed.as_slice() == lines.as_slice());
    Ok(())
}

#[test]
fn a_fault_is_shown_with_its_place(rt: HostRuntime) -> Result<(), Fail> {
    let alloc = rt.alloc();
    let (status, printed) = shown(
        alloc,
        b"GET / HTTP/1.1\r\n",
        Vec::new(alloc),
        Vec::new(alloc),
    )?;
    assert!(rt; status == 0 && printed.as_slice() == b"end bad-signature 0\ndone 16\n".as_slice());
    Ok(())
}

/// The second read fails; then each of the four writes.
#[test]
fn reads_and_writes_fail(rt: HostRuntime) -> Result<(), Fail> {
    let alloc = rt.alloc();
    let (status, printed) = shown(alloc, QUESTION, vec![in alloc; 1]?, Vec::new(alloc))?;
    let lines =
        b"accepted\nready DEALER\nmessage client - 4d4450433031 6d6d692e73657276696365 6563686f\nfault read\n";
    assert!(rt; status == 6 && printed.as_slice() == lines.as_slice());

    let lines =
        b"accepted\nready DEALER\nmessage client - 4d4450433031 6d6d692e73657276696365 6563686f\ndone 123\n";
    for write in 0..4_u64 {
        let (status, printed) = shown(alloc, QUESTION, Vec::new(alloc), vec![in alloc; write]?)?;
        assert!(rt; status == 7 && lines.as_slice().starts_with(printed.as_slice()));
    }
    Ok(())
}

#[test]
fn the_commands_are_named(rt: HostRuntime) -> Result<(), Fail> {
    let alloc = rt.alloc();
    let mut out = MemorySink::new(alloc, Vec::new(alloc));
    assert!(rt; help(&mut out) == 0);
    assert!(rt;
        out.written()
            == b"commands help replay tickets show gen broker client worker compact bridge audit ship follow\n".as_slice()
    );
    Ok(())
}
