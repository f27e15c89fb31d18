ghost use Rattle.std.specs.Prelude.{OnOk};
ghost use Rattle.mj_submit_file.specs.Files.{IsHeld};

use mj_base::Octets;
use mj_disk::{Disk, MemoryDisk};
use mj_ids::TicketId;
use mj_journal::OpenFault;
use mj_submit::{Note, Progress, Stage};
use mj_submit_file::{SubmitFile, note_payload, nothing_yet, read_note};
use std::alloc::Global;
use std::test::Fail;

const ID: &[u8; 16] = b"\xe5\x6a\x5d\x40\x28\xbd\x86\x53\x80\0\0\0\0\0\0\x01";

/// The file of a line that is issued, given and closed.
const WHOLE: &[u8; 75] =
    b"MJTSTOR2\0\0\0\0\0\0\0\x01\x01\0\0\0\x19I\0\0\0\0\0\0\0\x01\xe5\x6a\x5d\x40\x28\xbd\x86\x53\x80\0\0\0\0\0\0\x01\x01\0\0\0\x09G\0\0\0\0\0\0\0\x01\x01\0\0\0\x09D\0\0\0\0\0\0\0\x01\0";

fn disk_of(alloc: Global, bytes: &[u8], stop: Option<u64>) -> Result<MemoryDisk, Fail> {
    if bytes.len() > 200 {
        return Err("no room".into());
    }
    let octets = Octets::copy_of(alloc, bytes)?;
    Ok(MemoryDisk::new(alloc, octets, 200, Vec::new(alloc), stop)?)
}

fn id() -> Result<TicketId, Fail> {
    match TicketId::from_octets(ID) {
        Some(id) => Ok(id),
        None => Err("no id".into()),
    }
}

/// How far the file is, or that it isn't opened.
fn progress_of(alloc: Global, bytes: &[u8]) -> Result<Result<Progress, OpenFault>, Fail> {
    let mut disk = disk_of(alloc, bytes, None)?;
    match SubmitFile::open(alloc, &mut disk) {
        Ok(file) => Ok(Ok(file.progress())),
        Err(fault) => Ok(Err(fault)),
    }
}

#[test]
fn notes_are_read_again(rt: HostRuntime) -> Result<(), Fail> {
    let alloc = rt.alloc();
    let id = id()?;
    let notes = [
        Note::Issued { line: 258, id },
        Note::Given { line: 258 },
        Note::Closed { line: 258 },
    ];
    for note in notes {
        let payload = note_payload(alloc, &note)?;
        assert!(rt; read_note(payload.as_slice()) == Some(note));
    }
    assert!(rt; read_note(b"") == None);
    assert!(rt; read_note(b"G\0\0\0\0\0\0\x01") == None);
    assert!(rt; read_note(b"H\0\0\0\0\0\0\0\x01") == None);
    Ok(())
}

#[test]
fn files_open_as_their_notes(rt: HostRuntime) -> Result<(), Fail> {
    let alloc = rt.alloc();
    let id = id()?;
    assert!(rt; progress_of(alloc, b"")? == Ok(nothing_yet()));
    let closed = Progress {
        closed: 1,
        stage: Stage::Fresh,
    };
    assert!(rt; progress_of(alloc, WHOLE.as_slice())? == Ok(closed));
    let mut given = Octets::copy_of(alloc, &WHOLE[..60])?;
    given.push_all(b"\0")?;
    let delivered = Progress {
        closed: 0,
        stage: Stage::Delivered(id),
    };
    assert!(rt; progress_of(alloc, given.as_slice())? == Ok(delivered));
    Ok(())
}

/// The gate at which the file is damaged.
fn damage_of(alloc: Global, bytes: &[u8]) -> Result<Option<u64>, Fail> {
    let mut disk = disk_of(alloc, bytes, None)?;
    match SubmitFile::open(alloc, &mut disk) {
        Err(OpenFault::Damaged(at)) => Ok(Some(at)),
        Ok(_) | Err(_) => Ok(None),
    }
}

#[test]
fn damage_is_at_its_gate(rt: HostRuntime) -> Result<(), Fail> {
    let alloc = rt.alloc();
    // The second record is no note, and then the note of another line.
    let whole = WHOLE.as_slice();
    let mut other = Octets::copy_of(alloc, &whole[..51])?;
    other.push_all(b"X")?;
    other.push_all(&whole[52..])?;
    assert!(rt; damage_of(alloc, other.as_slice())? == Some(46));
    let mut later = Octets::copy_of(alloc, &whole[..59])?;
    later.push_all(b"\x02")?;
    later.push_all(&whole[60..])?;
    assert!(rt; damage_of(alloc, later.as_slice())? == Some(46));
    Ok(())
}

/// Appends the three notes of a line, and says of each whether it was the next one.
fn append_three<D: Disk>(alloc: Global, file: &mut SubmitFile, disk: &mut D) -> Result<bool, Fail>
    requires { IsHeld D.Disk file.old disk.old }
{
    let id = id()?;
    let first = append(alloc, file, disk, &Note::Issued { line: 1, id })?;
    let second = append(alloc, file, disk, &Note::Given { line: 1 })?;
    let again = append(alloc, file, disk, &Note::Given { line: 1 })?;
    let third = append(alloc, file, disk, &Note::Closed { line: 1 })?;
    Ok(first && second && !again && third)
}

fn append<D: Disk>(
    alloc: Global,
    file: &mut SubmitFile,
    disk: &mut D,
    note: &Note,
) -> Result<bool, Fail>
    requires { IsHeld D.Disk file.old disk.old }
    ensures { OnOk result (IsHeld D.Disk file.new disk.new) }
{
    match file.append(alloc, disk, note) {
        Ok(done) => Ok(done),
        Err(_) => Err("append failed".into()),
    }
}

/// The same in a file that is opened first.
fn keep_a_line<D: Disk>(alloc: Global, disk: &mut D) -> Result<bool, Fail> {
    match SubmitFile::open(alloc, disk) {
        Ok(mut file) => append_three(alloc, &mut file, disk),
        Err(_) => Err("not opened".into()),
    }
}

#[test]
fn a_line_is_kept(rt: HostRuntime) -> Result<(), Fail> {
    let alloc = rt.alloc();
    let mut disk = disk_of(alloc, b"", None)?;
    assert!(rt; keep_a_line(alloc, &mut disk)?);
    assert!(rt; disk.as_slice() == WHOLE.as_slice());
    Ok(())
}
