//! The files of the runs, and a run over two of them.
use mj_base::{MemorySink, Octets};
use mj_compact_prog::compact;
use mj_disk::MemoryDisk;
use std::alloc::Global;
use std::test::Fail;

pub const HEADER_1: &[u8; 16] = b"MJTSTOR1\0\0\0\0\0\0\0\0";

pub const BASE_1: &[u8; 16] = b"MJTSTOR2\0\0\0\0\0\0\0\x01";

pub const BASE_2: &[u8; 16] = b"MJTSTOR2\0\0\0\0\0\0\0\x02";

pub const BASE_3: &[u8; 16] = b"MJTSTOR2\0\0\0\0\0\0\0\x03";

/// Accepts of `p` and `q` for `later`, and the reply `P` to the first, each with its gate.
pub const FIRST: &[u8; 35] =
    b"\x01\0\0\0\x1e\x41\xe5\x6a\x5d\x40\x28\xbd\x86\x53\x80\0\0\0\0\0\0\x01\x05later\0\x01\0\0\0\x01p";

pub const SECOND: &[u8; 35] =
    b"\x01\0\0\0\x1e\x41\xb8\x19\xd2\xbd\x1a\xed\x8d\xa0\x80\0\0\0\0\0\0\x02\x05later\0\x01\0\0\0\x01q";

pub const REPLY: &[u8; 21] = b"\x01\0\0\0\x10\x53\0\0\0\0\0\0\0\x01\0\x01\0\0\0\x01P";

pub const CLOSE: &[u8; 14] = b"\x01\0\0\0\x09\x43\0\0\0\0\0\0\0\x01";

/// What a run answers and prints, and what the two files are then.
#[derive(Drop)]
pub struct Outcome {
    pub status: u8,
    pub printed: Octets,
    pub old: Octets,
    pub new: Octets,
}

/// From which call on the disk of the old file fails, and that of the new one, and which writes of the sink do.
#[derive(Drop)]
pub struct Stops {
    pub old: Option<u64>,
    pub new: Option<u64>,
    pub writes: Vec<u64>,
}

pub fn no_stops(alloc: Global) -> Stops {
    Stops {
        old: None,
        new: None,
        writes: Vec::new(alloc),
    }
}

/// The bytes of a file with these parts, and a closed gate.
pub fn file_of(alloc: Global, parts: &[&[u8]]) -> Result<Octets, Fail> {
    let mut octets = Octets::new(alloc);
    for part in parts {
        octets.push_all(part)?;
    }
    octets.push_all(&[0])?;
    Ok(octets)
}

/// Two tickets for `later`: the first has a reply, the second waits.
pub fn two_tickets(alloc: Global) -> Result<Octets, Fail> {
    file_of(
        alloc,
        &[
            BASE_1.as_slice(),
            FIRST.as_slice(),
            SECOND.as_slice(),
            REPLY.as_slice(),
        ],
    )
}

/// The same two in a smaller file.
pub fn two_kept(alloc: Global) -> Result<Octets, Fail> {
    file_of(
        alloc,
        &[
            BASE_3.as_slice(),
            FIRST.as_slice(),
            REPLY.as_slice(),
            SECOND.as_slice(),
        ],
    )
}

fn disk_of(alloc: Global, octets: &[u8], stop: Option<u64>) -> Result<MemoryDisk, Fail> {
    if octets.len() > 200 {
        return Err("no room".into());
    }
    let octets = Octets::copy_of(alloc, octets)?;
    Ok(MemoryDisk::new(alloc, octets, 200, Vec::new(alloc), stop)?)
}

fn words_of(alloc: Global, text: &str) -> Result<Vec<String>, Fail> {
    let mut words = Vec::new(alloc);
    for word in text.split(' ') {
        words.push(String::from_str(alloc, word)?)?;
    }
    Ok(words)
}

/// Runs the words over two files of these bytes.
pub fn run_with(
    alloc: Global,
    text: &str,
    old: &[u8],
    new: &[u8],
    stops: Stops,
) -> Result<Outcome, Fail> {
    let words = words_of(alloc, text)?;
    let mut old = disk_of(alloc, old, stops.old)?;
    let mut new = disk_of(alloc, new, stops.new)?;
    let mut out = MemorySink::new(alloc, stops.writes);
    let status = compact(alloc, words.as_slice(), &mut old, &mut new, &mut out);
    Ok(Outcome {
        status,
        printed: Octets::copy_of(alloc, out.written())?,
        old: Octets::copy_of(alloc, old.as_slice())?,
        new: Octets::copy_of(alloc, new.as_slice())?,
    })
}

pub fn run(alloc: Global, old: &[u8], new: &[u8]) -> Result<Outcome, Fail> {
    run_with(alloc, "a compact b", old, new, no_stops(alloc))
}
