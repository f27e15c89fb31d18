ghost use Rattle.std.specs.Prelude.{◌≡◌, None};

use mj_base::Octets;
use mj_disk::{Disk, DiskFailed, FileDisk, MemoryDisk, SIZE_LIMIT, write_synced};
use std::alloc::Global;
use std::fs;
use std::process::Abort;
use std::test::Fail;

fn disk_of(
    alloc: Global,
    bytes: &[u8],
    room: u64,
    failing: Vec<u64>,
    stop: Option<u64>,
) -> Result<MemoryDisk, Fail> {
    let mut octets = Octets::new(alloc);
    octets.push_all(bytes)?;
    if octets.len() as u64 > room {
        return Err("no room".into());
    }
    Ok(MemoryDisk::new(alloc, octets, room, failing, stop)?)
}

fn write(disk: &mut MemoryDisk, at: u64, octets: &[u8]) -> Result<(), DiskFailed> {
    if at > disk.as_slice().len() as u64 {
        return Ok(());
    }
    disk.write(at, octets)
}

fn read_three(disk: &mut MemoryDisk, at: usize) -> Result<[u8; 3], DiskFailed> {
    let mut into = [0; 3];
    let len = disk.as_slice().len();
    if len >= 3 && at <= len - 3 {
        disk.read(at as u64, &mut into)?;
    }
    Ok(into)
}

fn images_are(alloc: Global, disk: &MemoryDisk, images: [&[u8]; 3]) -> Result<bool, Fail> {
    for (k, wanted) in [(0, images[0]), (1, images[1]), (2, images[2])] {
        let image = disk.image(alloc, k)?;
        if image.as_slice() != wanted {
            return Ok(false);
        }
    }
    Ok(true)
}

#[test]
fn a_crash_leaves_old_bytes_new_bytes_or_others(rt: HostRuntime) -> Result<(), Fail> {
    let alloc = rt.alloc();
    let mut disk = disk_of(alloc, b"abcd", 8, Vec::new(alloc), None)?;
    assert!(rt; disk.images() == 3);
    assert!(rt; images_are(alloc, &disk, [b"abcd", b"abcd", b"abcd"])?);
    assert!(rt; write(&mut disk, 2, b"xyz").is_ok());
    assert!(rt; images_are(alloc, &disk, [b"abxyz", b"abcd", b"ab\xff\xff\xff"])?);
    assert!(rt; write(&mut disk, 0, b"q").is_ok());
    assert!(rt; images_are(alloc, &disk, [b"qbxyz", b"abcd", b"\xffb\xff\xff\xff"])?);
    assert!(rt; disk.sync().is_ok());
    assert!(rt; images_are(alloc, &disk, [b"qbxyz", b"qbxyz", b"qbxyz"])?);
    assert!(rt; disk.size() == Ok(5));
    assert!(rt; read_three(&mut disk, 1) == Ok(*b"bxy"));
    assert!(rt; disk.moment() == 5);
    Ok(())
}

#[test]
fn a_memory_disk_fails_where_it_is_told_to(rt: HostRuntime) -> Result<(), Fail> {
    let alloc = rt.alloc();
    let failing = vec![in alloc; 1, 2]?;
    let mut disk = disk_of(alloc, b"ab", 4, failing, Some(6))?;
    assert!(rt; disk.size() == Ok(2));
    assert!(rt; write(&mut disk, 1, b"xy") == Err(DiskFailed));
    assert!(rt; disk.sync() == Err(DiskFailed));
    assert!(rt; images_are(alloc, &disk, [b"ab", b"ab", b"a\xff"])?);
    assert!(rt; write(&mut disk, 2, b"cd").is_ok() && disk.sync().is_ok());
    assert!(rt; disk.size() == Ok(4));
    assert!(rt; disk.size() == Err(DiskFailed));
    Ok(())
}

#[test]
fn a_write_past_the_room_fails(rt: HostRuntime) -> Result<(), Fail> {
    let alloc = rt.alloc();
    let mut disk = disk_of(alloc, b"ab", 4, Vec::new(alloc), None)?;
    assert!(rt; write(&mut disk, 2, b"xyz") == Err(DiskFailed));
    assert!(rt; write(&mut disk, 2, b"xy") == Ok(()));
    assert!(rt; disk.sync() == Ok(()));
    assert!(rt; images_are(alloc, &disk, [b"abxy", b"abxy", b"abxy"])?);
    Ok(())
}

/// A file of these five bytes, seen by all calls that change nothing.
fn holds_abxyz<D: Disk>(rt: &impl Abort, file: &mut D)
    requires { D.told file.old ≡ None }
{
    let mut all = [0; 5];
    let mut part = [0; 4];
    assert!(rt; file.size() == Ok(5));
    assert!(rt; file.read(0, &mut all) == Ok(()));
    assert!(rt; all == *b"abxyz");
    assert!(rt; file.read(1, &mut part) == Ok(()));
    assert!(rt; part == *b"bxyz");
    assert!(rt; file.read(2, &mut part) == Err(DiskFailed));
    assert!(rt; file.write(SIZE_LIMIT - 1, b"x") == Err(DiskFailed));
    assert!(rt; file.size() == Ok(5));
    assert!(rt; file.moment() == 0);
}

/// A file tells no content, so that its size and what is read of it are shown here alone.
#[test]
fn a_file_disk_keeps_its_bytes(rt: HostRuntime) -> Result<(), Fail> {
    let alloc = rt.alloc();
    let path = "file_disk_test";
    let mut disk = FileDisk::new(&rt, String::from_str(alloc, path)?);
    assert!(rt; disk.size() == Ok(0));
    assert!(rt; write_synced(&mut disk, 0, b"abcd") == Ok(()));
    assert!(rt; disk.write(2, b"xyz") == Ok(()));
    assert!(rt; disk.sync() == Ok(()));
    holds_abxyz(&rt, &mut disk);
    let mut again = FileDisk::new(&rt, String::from_str(alloc, path)?);
    holds_abxyz(&rt, &mut again);
    fs::remove_file(&rt, path)?;
    Ok(())
}
