use mj_base::{Link, LinkAnswer, LinkWrite};
use mj_link::{ListenLink, SocketLink};
use std::io::{Read, Write};
use std::net::{TcpListener, TcpStream};
use std::test::Fail;

/// Bytes both ways over a port of this machine, silence, an end, and a connection that is refused.
#[test]
fn bytes_silence_and_ends_pass_over_a_port(rt: HostRuntime) -> Result<(), Fail> {
    let alloc = rt.alloc();
    let listener = TcpListener::bind(&rt, "127.0.0.1:0")?;
    let port = listener.local_addr()?.port();
    let mut link = SocketLink::new(rt, format!(in alloc; "tcp://127.0.0.1:{port}")?);
    assert!(rt; link.write(b"hi") == LinkWrite::Done);
    let (mut peer, _from) = listener.accept()?;
    let mut heard = [0; 2];
    peer.read_exact(&mut heard)?;
    assert!(rt; heard.as_slice() == b"hi".as_slice());

    peer.write_all(b"ho")?;
    let mut into = [0; 8];
    assert!(rt; link.read(&mut into) == LinkAnswer::Got(2));
    assert!(rt; into.as_slice().starts_with(b"ho"));
    assert!(rt; link.read(&mut into) == LinkAnswer::Idle);
    drop(peer);
    assert!(rt; link.read(&mut into) == LinkAnswer::End);

    // Nobody listens any more.
    drop(listener);
    assert!(rt; link.reopen().is_ok());
    assert!(rt; link.write(b"hi") == LinkWrite::Done);
    assert!(rt; link.read(&mut into) == LinkAnswer::End);
    Ok(())
}

/// What is written before a peer is there reaches it; behind its end the link takes the next one.
#[test]
fn a_link_listens_for_one_peer_after_the_other(rt: HostRuntime) -> Result<(), Fail> {
    let alloc = rt.alloc();
    let port = TcpListener::bind(&rt, "127.0.0.1:0")?.local_addr()?.port();
    let mut link = ListenLink::new(rt, alloc, format!(in alloc; "127.0.0.1:{port}")?);
    let mut into = [0; 8];
    assert!(rt; link.write(b"hi") == LinkWrite::Done);
    assert!(rt; link.read(&mut into) == LinkAnswer::Idle);

    let mut peer = TcpStream::connect(&rt, ("127.0.0.1", port))?;
    assert!(rt; link.read(&mut into) == LinkAnswer::Idle);
    let mut heard = [0; 2];
    peer.read_exact(&mut heard)?;
    assert!(rt; heard.as_slice() == b"hi".as_slice());
    peer.write_all(b"ho")?;
    assert!(rt; link.read(&mut into) == LinkAnswer::Got(2));
    drop(peer);
    assert!(rt; link.read(&mut into) == LinkAnswer::End);

    assert!(rt; link.reopen().is_ok());
    assert!(rt; link.read(&mut into) == LinkAnswer::Idle);
    Ok(())
}
