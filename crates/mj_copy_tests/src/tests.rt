//! The file of the rows, the messages of its copy, and a run of either command.
use mj_base::{LinkEvent, MemorySink, Octets, ScriptLink};
use mj_copy_prog::{follow, ship};
use mj_disk::MemoryDisk;
use std::alloc::Global;
use std::sync::Wait;
use std::test::Fail;

/// An accept of `hi` for `echo`, the reply `hi!` and the close, each behind its gate and its length, and a closed gate.
pub const COMMANDS: &[u8; 73] =
    b"\x01\0\0\0\x1e\x41\xe5\x6a\x5d\x40\x28\xbd\x86\x53\x80\0\0\0\0\0\0\x01\x04echo\0\x01\0\0\0\x02hi\x01\0\0\0\x12\x53\0\0\0\0\0\0\0\x01\0\x01\0\0\0\x03hi!\x01\0\0\0\x09\x43\0\0\0\0\0\0\0\x01\0";

pub const HEADER_1: &[u8; 16] = b"MJTSTOR1\0\0\0\0\0\0\0\0";

pub const BASE_1: &[u8; 16] = b"MJTSTOR2\0\0\0\0\0\0\0\x01";

/// What is shipped of these commands: the base, each command, and the end.
pub const BASE: &[u8; 11] = b"\0\x09B\0\0\0\0\0\0\0\x01";

pub const SEND_0: &[u8; 41] =
    b"\0\x27S\0\0\0\0\0\0\0\0\x41\xe5\x6a\x5d\x40\x28\xbd\x86\x53\x80\0\0\0\0\0\0\x01\x04echo\0\x01\0\0\0\x02hi";

pub const SEND_1: &[u8; 29] = b"\0\x1bS\0\0\0\0\0\0\0\x01\x53\0\0\0\0\0\0\0\x01\0\x01\0\0\0\x03hi!";

pub const SEND_2: &[u8; 20] = b"\0\x12S\0\0\0\0\0\0\0\x02\x43\0\0\0\0\0\0\0\x01";

pub const END: &[u8; 3] = b"\0\x01E";

/// What a run answers and prints, what it wrote to its link, and what its file is then.
#[derive(Drop)]
pub struct Outcome {
    pub status: u8,
    pub printed: Octets,
    pub written: Octets,
    pub file: Octets,
}

pub fn joined(alloc: Global, parts: &[&[u8]]) -> Result<Octets, Fail> {
    let mut octets = Octets::new(alloc);
    for part in parts {
        octets.push_all(part)?;
    }
    Ok(octets)
}

/// All that is shipped.
pub fn shipped(alloc: Global) -> Result<Octets, Fail> {
    joined(
        alloc,
        &[
            BASE.as_slice(),
            SEND_0.as_slice(),
            SEND_1.as_slice(),
            SEND_2.as_slice(),
            END.as_slice(),
        ],
    )
}

/// The copy, when it is whole.
pub fn whole_copy(alloc: Global) -> Result<Octets, Fail> {
    joined(alloc, &[BASE_1.as_slice(), COMMANDS.as_slice()])
}

/// A link that gives these pieces, each in one read, an empty one as its end.
pub fn link_of(alloc: Global, pieces: &[&[u8]], failing: Vec<u64>) -> Result<ScriptLink, Fail> {
    let mut events = Vec::new(alloc);
    for piece in pieces {
        if piece.is_empty() {
            events.push(LinkEvent::End)?;
        } else {
            events.push(LinkEvent::Given(Octets::copy_of(alloc, piece)?))?;
        }
    }
    Ok(ScriptLink::new(alloc, events, failing))
}

pub fn disk_of(alloc: Global, octets: &[u8], stop: Option<u64>) -> Result<MemoryDisk, Fail> {
    if octets.len() > 200 {
        return Err("no room".into());
    }
    let octets = Octets::copy_of(alloc, octets)?;
    Ok(MemoryDisk::new(alloc, octets, 200, Vec::new(alloc), stop)?)
}

fn words_of(alloc: Global, text: &str) -> Result<Vec<String>, Fail> {
    let mut words = Vec::new(alloc);
    for word in text.split(' ') {
        words.push(String::from_str(alloc, word)?)?;
    }
    Ok(words)
}

/// Runs the words over this link and this disk.
pub fn run_over<R: Wait>(
    rt: &R,
    alloc: Global,
    text: &str,
    ships: bool,
    link: &mut ScriptLink,
    disk: &mut MemoryDisk,
) -> Result<Outcome, Fail> {
    let words = words_of(alloc, text)?;
    let mut out = MemorySink::new(alloc, Vec::new(alloc));
    let status = if ships {
        ship(rt, alloc, words.as_slice(), link, disk, &mut out)
    } else {
        follow(rt, alloc, words.as_slice(), link, disk, &mut out)
    };
    Ok(Outcome {
        status,
        printed: Octets::copy_of(alloc, out.written())?,
        written: Octets::copy_of(alloc, link.written())?,
        file: Octets::copy_of(alloc, disk.as_slice())?,
    })
}

/// The same with a link that gives these pieces, over a file of these bytes.
pub fn run<R: Wait>(
    rt: &R,
    alloc: Global,
    text: &str,
    ships: bool,
    file: &[u8],
    pieces: &[&[u8]],
) -> Result<Outcome, Fail> {
    let mut link = link_of(alloc, pieces, Vec::new(alloc))?;
    let mut disk = disk_of(alloc, file, None)?;
    run_over(rt, alloc, text, ships, &mut link, &mut disk)
}
