//! Commands and bodies, as bytes and back.
use crate::made::{is_command, store, written};
use mj_base::{Frames, NoMemory, Octets};
use mj_tickets::{
    TicketCmd, payloads_are_of_one_command, read_body, read_cmd, the_worked_commands,
};
use std::alloc::Global;
use std::test::Fail;

/// Whether these bytes are a command that is written as they are.
fn is_read_back(alloc: Global, octets: &[u8]) -> Result<bool, Fail> {
    let cmd = read_cmd(alloc, octets)?.ok_or("a command")?;
    Ok(written(alloc, &cmd)?.as_slice() == octets)
}

fn with_one_more(alloc: Global, octets: &[u8]) -> Result<Octets, NoMemory> {
    let mut long = Octets::new(alloc);
    long.push_all(octets)?;
    long.push_all(&[0])?;
    Ok(long)
}

#[test]
fn commands_are_read_back_and_not_one_byte_short_or_long(rt: HostRuntime) -> Result<(), Fail> {
    let rows: [&[u8]; 6] = [
        b"A\xe5\x6a\x5d\x40\x28\xbd\x86\x53\x80\0\0\0\0\0\0\x01\x04echo\0\x01\0\0\0\x02hi",
        b"S\0\0\0\0\0\0\0\x01\0\x01\0\0\0\x03hi!",
        b"C\0\0\0\0\0\0\0\x01",
        b"A\xb8\x19\xd2\xbd\x1a\xed\x8d\xa0\x80\0\0\0\0\0\0\x02\x01 \0\0",
        b"S\x01\x02\x03\x04\x05\x06\x07\x08\0\0",
        b"S\0\0\0\0\0\0\0\x02\0\x03\0\0\0\0\0\0\0\x01a\0\0\0\0",
    ];
    for octets in rows {
        assert!(rt; is_read_back(rt.alloc(), octets)?, "{octets:?}");
        let short = &octets[..octets.len().saturating_sub(1)];
        assert!(rt; !is_command(rt.alloc(), short)?, "{octets:?}");
        let long = with_one_more(rt.alloc(), octets)?;
        assert!(rt; !is_command(rt.alloc(), long.as_slice())?, "{octets:?}");
    }
    Ok(())
}

#[test]
fn other_payloads_are_no_commands(rt: HostRuntime) -> Result<(), Fail> {
    let rows: [&[u8]; 14] = [
        b"",
        b"A",
        b"D\0\0\0\0\0\0\0\x01",
        b"C\0\0\0\0\0\0\x01",
        b"S\0\0\0\0\0\0\0\x01",
        b"S\0\0\0\0\0\0\0\x01\0",
        b"S\0\0\0\0\0\0\0\x01\0\x02\0\0\0\x03hi!",
        b"S\0\0\0\0\0\0\0\x01\0\x01\0\0\0\x04hi!",
        b"S\0\0\0\0\0\0\0\x01\0\x01\xff\xff\xff\xffhi!",
        b"A\xe5\x6a\x5d\x40\x28\xbd\x46\x53\x80\0\0\0\0\0\0\x01\x04echo\0\x01\0\0\0\x02hi",
        b"A\xe5\x6a\x5d\x40\x28\xbd\x86\x53\xc0\0\0\0\0\0\0\x01\x04echo\0\x01\0\0\0\x02hi",
        b"A\xe5\x6a\x5d\x40\x28\xbd\x86\x53\x80\0\0\0\0\0\0\x01\0\0\x01\0\0\0\x02hi",
        b"A\xe5\x6a\x5d\x40\x28\xbd\x86\x53\x80\0\0\0\0\0\0\x01\x04ech\n\0\x01\0\0\0\x02hi",
        b"A\xe5\x6a\x5d\x40\x28\xbd\x86\x53\x80\0\0\0\0\0\0\x01\xffecho\0\x01\0\0\0\x02hi",
    ];
    for octets in rows {
        assert!(rt; !is_command(rt.alloc(), octets)?, "{octets:?}");
    }
    Ok(())
}

/// The number of frames of the body that these bytes are.
fn frames_of(alloc: Global, octets: &[u8]) -> Result<Option<usize>, NoMemory> {
    match read_body(alloc, octets)? {
        Some(body) => Ok(Some(body.len())),
        None => Ok(None),
    }
}

#[test]
fn bodies_are_read_whole_or_not(rt: HostRuntime) -> Result<(), Fail> {
    let rows: [(&[u8], Option<usize>); 8] = [
        (b"\0\0", Some(0)),
        (b"\0\x01\0\0\0\0", Some(1)),
        (b"\0\x02\0\0\0\x02hi\0\0\0\x01\xff", Some(2)),
        (b"", None),
        (b"\0", None),
        (b"\0\0\0", None),
        (b"\0\x02\0\0\0\x02hi", None),
        (b"\0\x01\0\0\0\x02hi\0\0\0\x01\xff", None),
    ];
    for (octets, count) in rows {
        assert!(rt; frames_of(rt.alloc(), octets)? == count, "{octets:?}");
    }
    Ok(())
}

fn repeated(alloc: Global, count: u32) -> Result<Octets, NoMemory> {
    let mut octets = Octets::new(alloc);
    for _i in 0..count {
        octets.push_all(b"x")?;
    }
    Ok(octets)
}

#[test]
fn payloads_of_2_097_152_bytes_are_the_longest(rt: HostRuntime) -> Result<(), Fail> {
    let frame = repeated(rt.alloc(), 2_097_138)?;
    let whole = frame.as_slice();
    let front = &whole[..whole.len().saturating_sub(1)];
    let payload = written(rt.alloc(), &store(rt.alloc(), 1, front)?)?;
    assert!(rt; payload.len() == 2_097_152);
    assert!(rt; is_command(rt.alloc(), payload.as_slice())?);
    assert!(rt; !store(rt.alloc(), 1, whole)?.fits());

    let mut long = Octets::new(rt.alloc());
    long.push_all(b"S\0\0\0\0\0\0\0\x01\0\x01\0\x1f\xff\xf2")?;
    long.push_all(whole)?;
    assert!(rt; long.len() == 2_097_153);
    assert!(rt; !is_command(rt.alloc(), long.as_slice())?);
    Ok(())
}

fn empty_frames(alloc: Global, count: u32) -> Result<Frames, NoMemory> {
    let mut frames = Frames::new(alloc);
    for _i in 0..count {
        frames.push(b"")?;
    }
    Ok(frames)
}

#[test]
fn bodies_of_65_535_frames_are_the_longest(rt: HostRuntime) -> Result<(), Fail> {
    let body = empty_frames(rt.alloc(), 65_535)?;
    assert!(rt; TicketCmd::Store { number: 1, body }.fits());
    let body = empty_frames(rt.alloc(), 65_536)?;
    assert!(rt; !TicketCmd::Store { number: 1, body }.fits());
    Ok(())
}

#[test]
fn laws_of_payloads_can_be_called() {
    payloads_are_of_one_command();
    the_worked_commands();
}
