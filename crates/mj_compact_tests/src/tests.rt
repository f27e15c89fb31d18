use mj_base::{Limits, Octets};
use mj_compact::{CompactFault, compact};
use mj_disk::MemoryDisk;
use mj_journal::OpenFault;
use mj_store::Store;
use std::alloc::Global;
use std::test::Fail;

const HEADER_1: &[u8; 16] = b"MJTSTOR1\0\0\0\0\0\0\0\0";

const BASE_1: &[u8; 16] = b"MJTSTOR2\0\0\0\0\0\0\0\x01";

const BASE_2: &[u8; 16] = b"MJTSTOR2\0\0\0\0\0\0\0\x02";

const BASE_3: &[u8; 16] = b"MJTSTOR2\0\0\0\0\0\0\0\x03";

/// Accepts of `p` and `q` for `later`, and the reply `P` to the first, each with its gate.
const FIRST: &[u8; 35] =
    b"\x01\0\0\0\x1e\x41\xe5\x6a\x5d\x40\x28\xbd\x86\x53\x80\0\0\0\0\0\0\x01\x05later\0\x01\0\0\0\x01p";

const SECOND: &[u8; 35] =
    b"\x01\0\0\0\x1e\x41\xb8\x19\xd2\xbd\x1a\xed\x8d\xa0\x80\0\0\0\0\0\0\x02\x05later\0\x01\0\0\0\x01q";

const REPLY: &[u8; 21] = b"\x01\0\0\0\x10\x53\0\0\0\0\0\0\0\x01\0\x01\0\0\0\x01P";

const CLOSE: &[u8; 14] = b"\x01\0\0\0\x09\x43\0\0\0\0\0\0\0\x01";

/// The bytes of a file with these parts, and a closed gate.
fn file_of(alloc: Global, parts: &[&[u8]]) -> Result<Octets, Fail> {
    let mut octets = Octets::new(alloc);
    for part in parts {
        octets.push_all(part)?;
    }
    octets.push_all(&[0])?;
    Ok(octets)
}

fn disk_of(alloc: Global, octets: Octets, stop: Option<u64>) -> Result<MemoryDisk, Fail> {
    if octets.len() > 200 {
        return Err("no room".into());
    }
    Ok(MemoryDisk::new(alloc, octets, 200, Vec::new(alloc), stop)?)
}

/// Two tickets for `later`: the first has a reply, the second waits.
fn two_tickets(alloc: Global) -> Result<Octets, Fail> {
    file_of(
        alloc,
        &[
            BASE_1.as_slice(),
            FIRST.as_slice(),
            SECOND.as_slice(),
            REPLY.as_slice(),
        ],
    )
}

/// The number of the next ticket in a file of these bytes, or why it isn't opened.
fn next_of(alloc: Global, octets: Octets) -> Result<Result<u64, OpenFault>, Fail> {
    let mut disk = disk_of(alloc, octets, None)?;
    match Store::open(alloc, &Limits::standard(), &mut disk) {
        Ok(store) => Ok(Ok(store.next())),
        Err(fault) => Ok(Err(fault)),
    }
}

/// What becomes of an empty new file.
fn compacted(alloc: Global, old: Octets) -> Result<(Result<u64, CompactFault>, MemoryDisk), Fail> {
    let mut old = disk_of(alloc, old, None)?;
    let mut new = disk_of(alloc, Octets::new(alloc), None)?;
    let answer = compact(alloc, &Limits::standard(), &mut old, &mut new);
    Ok((answer, new))
}

#[test]
fn a_closed_ticket_is_left_out(rt: HostRuntime) -> Result<(), Fail> {
    let alloc = rt.alloc();
    for header in [HEADER_1, BASE_1] {
        let old = file_of(
            alloc,
            &[
                header.as_slice(),
                FIRST.as_slice(),
                REPLY.as_slice(),
                CLOSE.as_slice(),
            ],
        )?;
        let (answer, new) = compacted(alloc, old)?;
        assert!(rt; answer == Ok(0));
        assert!(rt; new.as_slice() == file_of(alloc, &[BASE_2.as_slice()])?.as_slice());
    }
    Ok(())
}

#[test]
fn open_tickets_keep_their_numbers_and_replies(rt: HostRuntime) -> Result<(), Fail> {
    let alloc = rt.alloc();
    let (answer, new) = compacted(alloc, two_tickets(alloc)?)?;
    let wanted = file_of(
        alloc,
        &[
            BASE_3.as_slice(),
            FIRST.as_slice(),
            REPLY.as_slice(),
            SECOND.as_slice(),
        ],
    )?;
    assert!(rt; answer == Ok(2));
    assert!(rt; new.as_slice() == wanted.as_slice());
    assert!(rt; new.as_slice().len() == 108);
    assert!(rt; next_of(alloc, wanted)? == Ok(3));
    Ok(())
}

#[test]
fn a_new_file_has_to_be_empty(rt: HostRuntime) -> Result<(), Fail> {
    let alloc = rt.alloc();
    let mut old = disk_of(alloc, two_tickets(alloc)?, None)?;
    let mut new = disk_of(alloc, file_of(alloc, &[])?, None)?;
    assert!(rt;
        compact(alloc, &Limits::standard(), &mut old, &mut new) == Err(CompactFault::NotEmpty)
    );
    assert!(rt; new.as_slice() == [0].as_slice());
    Ok(())
}

#[test]
fn an_old_file_that_is_no_store_is_refused(rt: HostRuntime) -> Result<(), Fail> {
    let alloc = rt.alloc();
    let zeros = file_of(alloc, &[[0; 17].as_slice()])?;
    let (answer, new) = compacted(alloc, zeros)?;
    assert!(rt; answer == Err(CompactFault::Unopened(OpenFault::NotAStore)));
    assert!(rt; new.as_slice().is_empty());
    Ok(())
}

/// Whether each image of the new disk is no store, or the whole new one; `short` images open as none.
fn are_whole_or_none(alloc: Global, new: &MemoryDisk) -> Result<bool, Fail> {
    let mut all = true;
    for k in 0..3 {
        let image = new.image(alloc, k)?;
        let is_short = image.len() <= 17;
        all &= is_short || matches!(next_of(alloc, image)?, Ok(3) | Err(OpenFault::NotAStore));
    }
    Ok(all)
}

/// What the new disk, which fails from so many calls on, is left as.
fn stopped(alloc: Global, calls: u64) -> Result<(Result<u64, CompactFault>, MemoryDisk), Fail> {
    let mut old = disk_of(alloc, two_tickets(alloc)?, None)?;
    let mut new = disk_of(alloc, Octets::new(alloc), Some(calls))?;
    let answer = compact(alloc, &Limits::standard(), &mut old, &mut new);
    Ok((answer, new))
}

#[test]
fn a_stop_leaves_no_store_or_the_whole(rt: HostRuntime) -> Result<(), Fail> {
    for calls in 0..18 {
        let (answer, new) = stopped(rt.alloc(), calls)?;
        assert!(rt; answer == Err(CompactFault::DiskFault), "{calls}");
        assert!(rt; are_whole_or_none(rt.alloc(), &new)?, "{calls}");
    }
    let (answer, new) = stopped(rt.alloc(), 18)?;
    assert!(rt; answer == Ok(2));
    assert!(rt; are_whole_or_none(rt.alloc(), &new)?);
    Ok(())
}

#[test]
fn a_failing_old_disk_keeps_its_file(rt: HostRuntime) -> Result<(), Fail> {
    let alloc = rt.alloc();
    for calls in 0..8 {
        let mut old = disk_of(alloc, two_tickets(alloc)?, Some(calls))?;
        let mut new = disk_of(alloc, Octets::new(alloc), None)?;
        let answer = compact(alloc, &Limits::standard(), &mut old, &mut new);
        assert!(rt; answer == Err(CompactFault::DiskFault), "{calls}");
        assert!(rt; old.as_slice() == two_tickets(alloc)?.as_slice());
        assert!(rt; are_whole_or_none(alloc, &new)?);
    }
    Ok(())
}
