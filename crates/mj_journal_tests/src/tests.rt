ghost use Rattle.std.specs.Prelude.{◌≡◌, false, ◌≤◌, ◌^◌, OnOk, IfOk};
ghost use Rattle.mj_disk.specs.DiskModel.{Now};
ghost use Rattle.mj_journal.specs.Appending.{EndsAt};

use mj_base::Octets;
use mj_disk::{Disk, FileDisk, MemoryDisk};
use mj_journal::{AppendFault, Journal, MakeFault, Making, OpenFault, Opening};
use std::alloc::Global;
use std::fs;
use std::test::Fail;

const HEADER_1: &[u8; 17] = b"MJTSTOR1\0\0\0\0\0\0\0\0\0";

const HEADER_2: &[u8; 17] = b"MJTSTOR2\0\0\0\0\0\0\0\x01\0";

const ACCEPT: &[u8; 30] =
    b"\x41\xe5\x6a\x5d\x40\x28\xbd\x86\x53\x80\0\0\0\0\0\0\x01\x04echo\0\x01\0\0\0\x02hi";

const STORE: &[u8; 18] = b"\x53\0\0\0\0\0\0\0\x01\0\x01\0\0\0\x03hi!";

const CLOSE: &[u8; 9] = b"\x43\0\0\0\0\0\0\0\x01";

/// Gates and records of the three payloads, from offset 16 on.
const RECORDS: &[u8; 73] =
    b"\x01\0\0\0\x1e\x41\xe5\x6a\x5d\x40\x28\xbd\x86\x53\x80\0\0\0\0\0\0\x01\x04echo\0\x01\0\0\0\x02hi\x01\0\0\0\x12\x53\0\0\0\0\0\0\0\x01\0\x01\0\0\0\x03hi!\x01\0\0\0\x09\x43\0\0\0\0\0\0\0\x01\0";

fn disk_of(
    alloc: Global,
    bytes: &[u8],
    failing: Vec<u64>,
    stop: Option<u64>,
) -> Result<MemoryDisk, Fail> {
    let mut octets = Octets::new(alloc);
    octets.push_all(bytes)?;
    if octets.len() > 200 {
        return Err("no room".into());
    }
    Ok(MemoryDisk::new(alloc, octets, 200, failing, stop)?)
}

/// A file that was opened, and how many payloads it had.
#[derive(Drop)]
struct Opened {
    journal: Journal,
    count: u32,
}

/// Opens a file up to its closed gate.
fn open<D: Disk>(alloc: Global, disk: &mut D, base: u64) -> Result<Opened, OpenFault>
    requires low { 1 ≤ base }
    requires high { base ≤ 2 ^ 61 }
    ensures { IfOk result (λ opened. Now (D.told disk.new) (EndsAt opened.journal.end)) }
{
    let mut opening = Opening::begin(disk, base)?;
    let mut payload = Octets::new(alloc);
    for count in 0..1000 {
        if !opening.next(alloc, disk, &mut payload)? {
            return Ok(Opened {
                journal: opening.finish(),
                count,
            });
        }
    }
    Err(OpenFault::NoMemory)
}

fn append<D: Disk>(
    alloc: Global,
    journal: &mut Journal,
    disk: &mut D,
    payload: &[u8],
) -> Result<(), AppendFault>
    requires { journal.old.spent ≡ false → Now (D.told disk.old) (EndsAt journal.old.end) }
    ensures { journal.new.spent ≡ false → Now (D.told disk.new) (EndsAt journal.new.end) }
{
    if payload.is_empty() || payload.len() > 2_097_152 {
        return Ok(());
    }
    journal.append(alloc, disk, payload)
}

fn opens_as(alloc: Global, disk: &MemoryDisk, few: u32, many: u32) -> Result<bool, Fail> {
    for k in 0..3 {
        let image = disk.image(alloc, k)?;
        let mut again = disk_of(alloc, image.as_slice(), Vec::new(alloc), None)?;
        let Ok(opened) = open(alloc, &mut again, 1) else {
            return Ok(false);
        };
        if opened.count != few && opened.count != many {
            return Ok(false);
        }
    }
    Ok(true)
}

#[test]
fn three_appends_give_the_file_byte_for_byte(rt: HostRuntime) -> Result<(), Fail> {
    let alloc = rt.alloc();
    for (start, header) in [(HEADER_1.as_slice(), HEADER_1), (b"".as_slice(), HEADER_2)] {
        let mut disk = disk_of(alloc, start, Vec::new(alloc), None)?;
        let Ok(mut opened) = open(alloc, &mut disk, 1) else {
            return Err("opening".into());
        };
        assert!(rt; opened.count == 0);
        assert!(rt; disk.as_slice() == header.as_slice());
        assert!(rt; append(alloc, &mut opened.journal, &mut disk, ACCEPT) == Ok(()));
        assert!(rt; opened.journal.end() == 51);
        assert!(rt; append(alloc, &mut opened.journal, &mut disk, STORE) == Ok(()));
        assert!(rt; opened.journal.end() == 74);
        assert!(rt; append(alloc, &mut opened.journal, &mut disk, CLOSE) == Ok(()));
        assert!(rt; opened.journal.end() == 88);
        let file = disk.as_slice();
        assert!(rt; file.len() == 89);
        assert!(rt; file[..16] == header[..16]);
        assert!(rt; file[16..] == RECORDS[..]);
        let mut again = disk_of(alloc, disk.as_slice(), Vec::new(alloc), None)?;
        let opened = open(alloc, &mut again, 1).or(Err("opening"))?;
        assert!(rt; opened.count == 3);
        assert!(rt; opened.journal.end() == 88);
    }
    Ok(())
}

#[test]
fn a_stop_in_an_append_leaves_the_old_file_or_the_new(rt: HostRuntime) -> Result<(), Fail> {
    let alloc = rt.alloc();
    // Four calls of the disk come before the append.
    for calls in 0..5 {
        let mut disk = disk_of(alloc, HEADER_1, Vec::new(alloc), Some(4 + calls))?;
        let Ok(mut opened) = open(alloc, &mut disk, 1) else {
            return Err("opening".into());
        };
        let answer = append(alloc, &mut opened.journal, &mut disk, ACCEPT);
        if calls == 4 {
            assert!(rt; answer == Ok(()));
            assert!(rt; opens_as(alloc, &disk, 1, 1)?);
        } else {
            assert!(rt; answer == Err(AppendFault::DiskFault));
            assert!(rt; opens_as(alloc, &disk, 0, 1)?);
            assert!(rt;
                append(alloc, &mut opened.journal, &mut disk, ACCEPT) == Err(AppendFault::Spent)
            );
        }
    }
    Ok(())
}

#[test]
fn each_failing_call_of_an_append_is_a_fault(rt: HostRuntime) -> Result<(), Fail> {
    let alloc = rt.alloc();
    for (call, payloads) in [(4, 0), (5, 0), (6, 0), (7, 1)] {
        let mut failing = Vec::new(alloc);
        failing.push(call)?;
        let mut disk = disk_of(alloc, HEADER_1, failing, None)?;
        let Ok(mut opened) = open(alloc, &mut disk, 1) else {
            return Err("opening".into());
        };
        assert!(rt;
            append(alloc, &mut opened.journal, &mut disk, ACCEPT) == Err(AppendFault::DiskFault)
        );
        assert!(rt; opens_as(alloc, &disk, 0, 1)?);
        let opened = open(alloc, &mut disk, 1).or(Err("opening"))?;
        assert!(rt; opened.count == payloads);
    }
    Ok(())
}

#[test]
fn other_files_are_refused_by_name(rt: HostRuntime) -> Result<(), Fail> {
    let alloc = rt.alloc();
    for (file, fault) in [
        (
            b"MJTSTOR3\0\0\0\0\0\0\0\0\0\0".as_slice(),
            OpenFault::Version(3),
        ),
        (
            b"MJTSTOR0\0\0\0\0\0\0\0\0\0\0".as_slice(),
            OpenFault::Version(0),
        ),
        (
            b"MJTSTORX\0\0\0\0\0\0\0\0\0\0".as_slice(),
            OpenFault::NotAStore,
        ),
        (
            b"MJTSTOR2\0\0\0\0\0\0\0\0\0\0".as_slice(),
            OpenFault::NotAStore,
        ),
        (
            b"MJTSTOR1\0\0\0\0\0\0\0\x01\0\0".as_slice(),
            OpenFault::NotAStore,
        ),
        (
            b"NJTSTOR1\0\0\0\0\0\0\0\0\0\0".as_slice(),
            OpenFault::NotAStore,
        ),
        (
            b"MJTSTOR1\0\0\0\0\0\0\0\0\x01\0\0\0\x01A".as_slice(),
            OpenFault::Damaged(16),
        ),
        (
            b"MJTSTOR1\0\0\0\0\0\0\0\0\x01\0\0\0\0\0\0\0\0\0".as_slice(),
            OpenFault::Damaged(16),
        ),
    ] {
        let mut disk = disk_of(alloc, file, Vec::new(alloc), None)?;
        let answer = open(alloc, &mut disk, 1);
        match answer {
            Ok(_) => return Err("it was opened".into()),
            Err(met) => assert!(rt; met == fault, "{file:?}"),
        }
        assert!(rt; disk.as_slice() == file);
    }
    Ok(())
}

#[test]
fn a_file_cut_short_is_damaged_or_has_fewer_payloads(rt: HostRuntime) -> Result<(), Fail> {
    let alloc = rt.alloc();
    let mut whole = Octets::new(alloc);
    whole.push_all(&HEADER_1[..16])?;
    whole.push_all(RECORDS)?;
    for len in 0..90 {
        let file = whole.as_slice();
        if len > file.len() {
            break;
        }
        let mut disk = disk_of(alloc, &file[..len], Vec::new(alloc), None)?;
        let answer = match open(alloc, &mut disk, 1) {
            Ok(opened) => Ok(opened.count),
            Err(fault) => Err(fault),
        };
        let wanted = match len {
            0..18 => Ok(0),
            18..52 => Err(OpenFault::Damaged(16)),
            52..75 => Err(OpenFault::Damaged(51)),
            75..89 => Err(OpenFault::Damaged(74)),
            _ => Ok(3),
        };
        assert!(rt; answer == wanted, "{len}");
    }
    Ok(())
}

#[test]
fn any_open_gate_will_do(rt: HostRuntime) -> Result<(), Fail> {
    let alloc = rt.alloc();
    let mut file = [0; 89];
    file[..16].copy_from_slice(&HEADER_1[..16]);
    file[16..].copy_from_slice(RECORDS);
    file[51] = 7;
    let mut disk = disk_of(alloc, &file, Vec::new(alloc), None)?;
    let Ok(opened) = open(alloc, &mut disk, 1) else {
        return Err("opening".into());
    };
    assert!(rt; opened.count == 3);
    let mut into = [0; 9];
    if opened.journal.end() == 88 {
        assert!(rt; opened.journal.read(&mut disk, 79, &mut into) == Ok(()));
    }
    assert!(rt; into == *CLOSE);
    Ok(())
}

#[test]
fn a_payload_is_handed_out_with_its_gate(rt: HostRuntime) -> Result<(), Fail> {
    let alloc = rt.alloc();
    let mut file = [0; 89];
    file[..16].copy_from_slice(&HEADER_1[..16]);
    file[16..].copy_from_slice(RECORDS);
    let mut disk = disk_of(alloc, &file, Vec::new(alloc), None)?;
    let Ok(mut opening) = Opening::begin(&mut disk, 7) else {
        return Err("opening".into());
    };
    assert!(rt; opening.base() == 1);
    let mut payload = Octets::new(alloc);
    assert!(rt; opening.next(alloc, &mut disk, &mut payload) == Ok(true));
    assert!(rt; payload.as_slice() == ACCEPT.as_slice());
    assert!(rt; opening.gate() == 16);
    assert!(rt; opening.next(alloc, &mut disk, &mut payload) == Ok(true));
    assert!(rt; payload.as_slice() == STORE.as_slice());
    assert!(rt; opening.gate() == 51);
    Ok(())
}

#[test]
fn a_file_in_the_making_is_no_store(rt: HostRuntime) -> Result<(), Fail> {
    let alloc = rt.alloc();
    let mut disk = disk_of(alloc, b"", Vec::new(alloc), None)?;
    let Ok(mut making) = Making::begin(&mut disk, 2) else {
        return Err("making".into());
    };
    assert!(rt; making.append(alloc, &mut disk, CLOSE) == Ok(()));
    assert!(rt; making.append(alloc, &mut disk, STORE) == Ok(()));
    let mut early = disk_of(alloc, disk.as_slice(), Vec::new(alloc), None)?;
    assert!(rt; open(alloc, &mut early, 1).is_err_and(|fault| fault == OpenFault::NotAStore));
    let Ok(mut journal) = making.finish(&mut disk) else {
        return Err("finishing".into());
    };
    assert!(rt; journal.end() == 53);
    assert!(rt; journal.append(alloc, &mut disk, CLOSE) == Ok(()));
    let Ok(mut opening) = Opening::begin(&mut disk, 1) else {
        return Err("opening".into());
    };
    assert!(rt; opening.base() == 2);
    let mut payload = Octets::new(alloc);
    assert!(rt; opening.next(alloc, &mut disk, &mut payload) == Ok(true));
    assert!(rt; payload.as_slice() == CLOSE.as_slice());
    assert!(rt; opens_as(alloc, &disk, 3, 3)?);
    Ok(())
}

#[test]
fn a_file_that_is_not_empty_is_not_made_anew(rt: HostRuntime) -> Result<(), Fail> {
    let alloc = rt.alloc();
    let mut disk = disk_of(alloc, b"M", Vec::new(alloc), None)?;
    let made = Making::begin(&mut disk, 2);
    assert!(rt; made.is_err_and(|fault| fault == MakeFault::NotEmpty));
    assert!(rt; disk.as_slice() == b"M".as_slice());
    Ok(())
}

#[test]
fn a_real_file_is_opened_again(rt: HostRuntime) -> Result<(), Fail> {
    let alloc = rt.alloc();
    let path = "journal_test";
    let mut disk = FileDisk::new(&rt, String::from_str(alloc, path)?);
    let Ok(mut opened) = open(alloc, &mut disk, 1) else {
        return Err("opening".into());
    };
    assert!(rt; opened.count == 0);
    assert!(rt; append(alloc, &mut opened.journal, &mut disk, STORE) == Ok(()));
    assert!(rt; append(alloc, &mut opened.journal, &mut disk, CLOSE) == Ok(()));
    let mut again = FileDisk::new(&rt, String::from_str(alloc, path)?);
    let opened = open(alloc, &mut again, 1).or(Err("opening"))?;
    assert!(rt; opened.count == 2);
    assert!(rt; opened.journal.end() == 53);
    fs::remove_file(&rt, path)?;
    Ok(())
}
