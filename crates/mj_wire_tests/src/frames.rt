use mj_base::{Frames, NoMemory, Octets};
use mj_frame::{
    Head, HeadAnswer, every_head_is_read, frames_end_once, read_head, write_frame, write_message,
    written_is_read,
};
use std::alloc::Global;
use std::test::Fail;

fn frames_of(alloc: Global, bodies: &[&[u8]]) -> Result<Frames, NoMemory> {
    let mut frames = Frames::new(alloc);
    for body in bodies {
        frames.push(*body)?;
    }
    Ok(frames)
}

#[test]
fn messages_stand_as_published(rt: HostRuntime) -> Result<(), Fail> {
    let rows: [(&[&[u8]], &[u8]); 4] = [
        (
            &[b"", b"MDPC01", b"mmi.service", b"echo"],
            b"\x01\x00\x01\x06MDPC01\x01\x0bmmi.service\x00\x04echo",
        ),
        (
            &[b"", b"MDPW01", b"\x01", b"echo"],
            b"\x01\x00\x01\x06MDPW01\x01\x01\x01\x00\x04echo",
        ),
        (&[b"MDPW02", b"\x05"], b"\x01\x06MDPW02\x00\x01\x05"),
        (&[b""], b"\x00\x00"),
    ];
    for (bodies, octets) in rows {
        let message = frames_of(rt.alloc(), bodies)?;
        assert!(rt; message.len() > 0);
        let mut out = Octets::new(rt.alloc());
        write_message(&message, &mut out)?;
        assert!(rt; out.as_slice() == octets);
    }
    Ok(())
}

#[test]
fn a_size_of_255_is_short(rt: HostRuntime) -> Result<(), Fail> {
    let body = [7; 256];
    let mut short = Octets::new(rt.alloc());
    write_frame(false, true, &body[..255], &mut short)?;
    assert!(rt; short.len() == 257);
    assert!(rt; &short.as_slice()[..2] == b"\x04\xff".as_slice());
    let mut long = Octets::new(rt.alloc());
    write_frame(true, false, &body, &mut long)?;
    assert!(rt; long.len() == 265);
    assert!(rt; &long.as_slice()[..9] == b"\x03\0\0\0\0\0\0\x01\0".as_slice());
    Ok(())
}

#[test]
fn heads_are_read_as_published(rt: HostRuntime) {
    let rows: [(&[u8], HeadAnswer); 11] = [
        (b"", HeadAnswer::Short),
        (b"\x00", HeadAnswer::Short),
        (b"\x02\0\0\0\0\0\0\0", HeadAnswer::Short),
        (b"\x05", HeadAnswer::BadFlags),
        (b"\x07\x00", HeadAnswer::BadFlags),
        (b"\x08\x00", HeadAnswer::BadFlags),
        (b"\xff\x00", HeadAnswer::BadFlags),
        (b"\x01\x06MDPC01", head(true, false, 6, 2)),
        (b"\x04\x1c\x05READY", head(false, true, 28, 2)),
        (b"\x02\0\0\0\0\0\0\0\x05", head(false, false, 5, 9)),
        (b"\x06\x01\0\0\0\0\0\0\0", head(false, true, 1 << 56, 9)),
    ];
    for (octets, answer) in rows {
        assert!(rt; read_head(octets) == answer);
    }
}

fn head(more: bool, command: bool, size: u64, used: usize) -> HeadAnswer {
    HeadAnswer::Head(
        Head {
            more,
            command,
            size,
        },
        used,
    )
}

#[test]
fn laws_can_be_called() {
    every_head_is_read();
    frames_end_once();
    written_is_read();
}
