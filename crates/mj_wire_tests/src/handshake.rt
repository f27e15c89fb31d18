use mj_base::{Octets, Reason};
use mj_handshake::{SocketType, one_list, read_ready, write_ready, written_is_read};
use std::test::Fail;

#[test]
fn each_type_is_written_as_its_frame(rt: HostRuntime) -> Result<(), Fail> {
    let cases: [(SocketType, &[u8]); 3] = [
        (
            SocketType::Req,
            b"\x04\x19\x05READY\x0bSocket-Type\0\0\0\x03REQ",
        ),
        (
            SocketType::Dealer,
            b"\x04\x1c\x05READY\x0bSocket-Type\0\0\0\x06DEALER",
        ),
        (
            SocketType::Router,
            b"\x04\x1c\x05READY\x0bSocket-Type\0\0\0\x06ROUTER",
        ),
    ];
    for (kind, expected) in cases {
        let mut out = Octets::new(rt.alloc());
        write_ready(kind, &mut out)?;
        assert!(rt; out.as_slice() == expected);
    }
    Ok(())
}

#[test]
fn a_ready_is_read_as_its_type_or_its_fault(rt: HostRuntime) {
    let cases: [(&[u8], Result<SocketType, Reason>); 17] = [
        (
            b"\x05READY\x0bSocket-Type\0\0\0\x03REQ",
            Ok(SocketType::Req),
        ),
        (
            b"\x05READY\x0bSocket-Type\0\0\0\x06DEALER",
            Ok(SocketType::Dealer),
        ),
        (
            b"\x05READY\x0bSocket-Type\0\0\0\x06ROUTER",
            Ok(SocketType::Router),
        ),
        (
            b"\x05READY\x0bSocket-Type\0\0\0\x06DEALER\x08Identity\0\0\0\0",
            Ok(SocketType::Dealer),
        ),
        (
            b"\x05READY\x08iDENTITY\0\0\0\x02id\x0bsOCKET-tYPE\0\0\0\x06DEALER",
            Ok(SocketType::Dealer),
        ),
        (
            b"\x05READY\x05X-_.+\0\0\0\0\x0bSocket-Type\0\0\0\x03REQ",
            Ok(SocketType::Req),
        ),
        (
            b"\x05READY\x0bSocket-Type\0\0\0\x03REQ\x0bSOCKET-TYPE\0\0\0\x06ROUTER",
            Ok(SocketType::Req),
        ),
        (
            b"\x05READY\x0bSocket-Type\0\0\0\x03PUB\x0bSocket-Type\0\0\0\x03REQ",
            Err(Reason::BadSocketType),
        ),
        (b"\x05READY", Err(Reason::BadSocketType)),
        (
            b"\x05READY\x0bSocket-Type\0\0\0\x03req",
            Err(Reason::BadSocketType),
        ),
        (b"", Err(Reason::BadHandshake)),
        (
            b"\x05HELLO\x0bSocket-Type\0\0\0\x03REQ",
            Err(Reason::BadHandshake),
        ),
        (b"\x05READY\0\0\0\0\x03REQ", Err(Reason::BadHandshake)),
        (
            b"\x05READY\x0bSocket Type\0\0\0\x03REQ",
            Err(Reason::BadHandshake),
        ),
        (
            b"\x05READY\x0bSocket-Type\0\0\0\x04REQ",
            Err(Reason::BadHandshake),
        ),
        (
            b"\x05READY\x0bSocket-Type\xff\xff\xff\xffREQ",
            Err(Reason::BadHandshake),
        ),
        (
            b"\x05READY\x0bSocket-Type\0\0\0\x03REQ\0",
            Err(Reason::BadHandshake),
        ),
    ];
    for (body, expected) in cases {
        assert!(rt; read_ready(body) == expected);
    }
}

#[test]
fn an_identity_of_256_bytes_is_too_long(rt: HostRuntime) -> Result<(), Fail> {
    let identity = [7; 256];
    let mut long = Octets::new(rt.alloc());
    long.push_all(b"\x05READY\x0bSocket-Type\0\0\0\x03REQ\x08Identity\0\0\x01\0")?;
    long.push_all(&identity)?;
    assert!(rt; read_ready(long.as_slice()) == Err(Reason::BadHandshake));

    let mut lawful = Octets::new(rt.alloc());
    lawful.push_all(b"\x05READY\x0bSocket-Type\0\0\0\x03REQ\x08Identity\0\0\0\xff")?;
    lawful.push_all(&identity[..255])?;
    assert!(rt; read_ready(lawful.as_slice()) == Ok(SocketType::Req));
    Ok(())
}
