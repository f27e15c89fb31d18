//! A run of the program over memory.
use mj_base::{MemorySink, MemorySource, Octets};
use mj_disk::MemoryDisk;
use mj_prog::tool;
use std::alloc::{AllocError, Global};
use std::test::Fail;

/// Bytes that a disk has room for.
const ROOM: u64 = 4096;

/// Which calls fail, by their numbers from 0; and from which call on the disk takes nothing.
#[derive(Drop)]
pub(crate) struct Failing {
    pub reads: Vec<u64>,
    pub writes: Vec<u64>,
    pub calls: Vec<u64>,
    pub stop: Option<u64>,
}

/// How a run ended.
#[derive(Drop)]
pub(crate) struct Ended {
    pub status: u8,
    pub printed: Octets,
    pub disk: MemoryDisk,
}

/// Nothing fails.
pub(crate) fn nothing(alloc: Global) -> Failing {
    Failing {
        reads: Vec::new(alloc),
        writes: Vec::new(alloc),
        calls: Vec::new(alloc),
        stop: None,
    }
}

pub(crate) fn run(
    alloc: Global,
    words: &[&str],
    script: &[u8],
    file: &[u8],
    failing: Failing,
) -> Result<Ended, Fail> {
    if file.len() as u64 > ROOM {
        return Err("a long file".into());
    }
    let mut source = MemorySource::new(Octets::copy_of(alloc, script)?, failing.reads);
    let mut sink = MemorySink::new(alloc, failing.writes);
    let held = Octets::copy_of(alloc, file)?;
    let mut disk = MemoryDisk::new(alloc, held, ROOM, failing.calls, failing.stop)?;
    let status = tool(
        alloc,
        &owned(alloc, words)?,
        &mut source,
        &mut disk,
        &mut sink,
    );
    Ok(Ended {
        status,
        printed: Octets::copy_of(alloc, sink.written())?,
        disk,
    })
}

fn owned(alloc: Global, words: &[&str]) -> Result<Vec<String>, AllocError> {
    let mut all = Vec::new(alloc);
    for word in words {
        all.push(String::from_str(alloc, word)?)?;
    }
    Ok(all)
}
