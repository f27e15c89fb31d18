//! The call over ports that give the events of a question, and keep what they are given.
ghost use Rattle.std.specs.Prelude.{◌≡◌, ◌≤◌, false, IfOk};

use super::words::words_of;
use mj_base::{Event, MemorySink, Octets, Out};
use mj_disk::MemoryDisk;
use mj_host::broker;
use mj_serve::Ports;
use mj_serve_tests::Recorder;
use std::alloc::Global;
use std::test::Fail;

/// Greeting and READY of a REQ.
const HELLO: &[u8; 91] = b"\xff\0\0\0\0\0\0\0\0\x7f\x03\0NULL\0\0\0\0\0\0\0\0\0\0\0\0\0\0\0\0\
\0\0\0\0\0\0\0\0\0\0\0\0\0\0\0\0\0\0\0\0\0\0\0\0\0\0\0\0\0\0\0\0\
\x04\x19\x05READY\x0bSocket-Type\0\0\0\x03REQ";

/// Whether there is an `echo`, and the answer that there is none.
const QUESTION: &[u8; 29] = b"\x01\0\x01\x06MDPC01\x01\x0bmmi.service\0\x04echo";

const ANSWER: &[u8; 28] = b"\x01\0\x01\x06MDPC01\x01\x0bmmi.service\0\x03404";

/// What is wanted of a run: its words, the bytes of its file, the calls of the disk and the writes that fail.
#[derive(Clone, Copy)]
struct Row {
    text: &'static str,
    file: &'static [u8],
    disk_fails: bool,
    sink_fails: bool,
    status: u8,
    printed: &'static [u8],
}

const WELL: Row = Row {
    text: "- broker a --lanes 2",
    file: b"",
    disk_fails: false,
    sink_fails: false,
    status: 0,
    printed: b"done 3\n",
};

const ROWS: [Row; 7] = [
    WELL,
    Row {
        text: "a broker a --lanes 2",
        ..WELL
    },
    Row {
        text: "- broker a --lanes 65",
        status: 1,
        printed: b"fault words\n",
        ..WELL
    },
    Row {
        text: "a broker a",
        file: &[0; 18],
        status: 3,
        printed: b"fault store not-a-store\n",
        ..WELL
    },
    Row {
        text: "a broker a",
        file: b"MJTSTOR3\0\0\0\0\0\0\0\0\0\0",
        status: 3,
        printed: b"fault store version 3\n",
        ..WELL
    },
    Row {
        text: "a broker a",
        disk_fails: true,
        status: 5,
        printed: b"fault disk\n",
        ..WELL
    },
    Row {
        sink_fails: true,
        status: 7,
        printed: b"",
        ..WELL
    },
];

fn events(alloc: Global) -> Result<Vec<Event>, Fail> {
    let mut events = Vec::new(alloc);
    events.push(Event::Open(0))?;
    events.push(Event::Bytes(0, Octets::copy_of(alloc, HELLO)?))?;
    events.push(Event::Bytes(0, Octets::copy_of(alloc, QUESTION)?))?;
    Ok(events)
}

fn ports_of(alloc: Global) -> Result<Recorder, Fail>
    ensures lanes { IfOk result (λ ports. ⟦<Recorder as Ports>⟧.lanes_in ports ≤ 64) }
    ensures going { IfOk result (λ ports. ⟦<Recorder as Ports>⟧.stopped ports ≡ false) }
{
    match Recorder::new(alloc, 2, events(alloc)?) {
        Some(ports) => Ok(ports),
        None => Err("too many events".into()),
    }
}

/// What fails from the first call on, or nothing.
fn failing(alloc: Global, fails: bool) -> Result<Vec<u64>, Fail> {
    let mut calls = Vec::new(alloc);
    if fails {
        calls.push(0)?;
    }
    Ok(calls)
}

fn disk_of(alloc: Global, row: &Row) -> Result<MemoryDisk, Fail> {
    if row.file.len() > 200 {
        return Err("a long file".into());
    }
    let octets = Octets::copy_of(alloc, row.file)?;
    Ok(MemoryDisk::new(alloc, octets, 200, failing(alloc, row.disk_fails)?, None)?)
}

/// Whether the run answers and prints what is wanted.
fn is_as_wanted(alloc: Global, row: &Row) -> Result<bool, Fail> {
    let words = words_of(alloc, row.text)?;
    let mut ports = ports_of(alloc)?;
    let mut disk = disk_of(alloc, row)?;
    let mut out = MemorySink::new(alloc, failing(alloc, row.sink_fails)?);
    let status = broker(
        alloc,
        words.as_slice(),
        [0; 32],
        &mut ports,
        &mut disk,
        &mut out,
    );
    Ok(status == row.status && out.written() == row.printed)
}

#[test]
fn each_status_has_its_line(rt: HostRuntime) -> Result<(), Fail> {
    for row in &ROWS {
        assert!(rt; is_as_wanted(rt.alloc(), row)?, "{}", row.text);
    }
    Ok(())
}

/// Whether the last thing that was given is this piece for lane 0.
fn was_given(ports: &Recorder, piece: &[u8]) -> bool {
    match ports.given.last() {
        Some(kept) => match &kept.out {
            Out::Piece(0, octets) => octets.as_slice() == piece,
            _ => false,
        },
        None => false,
    }
}

#[test]
fn a_question_is_answered(rt: HostRuntime) -> Result<(), Fail> {
    let alloc = rt.alloc();
    let words = words_of(alloc, WELL.text)?;
    let mut ports = ports_of(alloc)?;
    let mut disk = disk_of(alloc, &WELL)?;
    let mut out = MemorySink::new(alloc, Vec::new(alloc));
    let status = broker(
        alloc,
        words.as_slice(),
        [0; 32],
        &mut ports,
        &mut disk,
        &mut out,
    );
    assert!(rt; status == 0);
    assert!(rt; was_given(&ports, ANSWER));
    Ok(())
}
