use mj_base::{Event, MemorySink, Note, Octets};
use mj_disk::MemoryDisk;
use mj_gen::{GenPorts, code, generate, the_generated_load};
use mj_serve::Ports;
use std::alloc::Global;
use std::test::Fail;

/// A load, the calls of the disk and the writes that fail, and what is wanted.
#[derive(Clone, Copy)]
struct Row {
    n: u64,
    stored: bool,
    file: &'static [u8],
    /// The number of the disk's call that fails, from 0; none where it is large.
    disk_fails: u64,
    sink_fails: bool,
    status: u8,
    printed: &'static [u8],
    size: usize,
}

const ONE: Row = Row {
    n: 1,
    stored: false,
    file: b"",
    disk_fails: 1000,
    sink_fails: false,
    status: 0,
    printed: b"events 40\npieces 18\noctets 798\nends 0\ndone 40\n",
    size: 0,
};

const ROWS: [Row; 8] = [
    ONE,
    Row {
        n: 8,
        printed: b"events 68\npieces 32\noctets 1112\nends 0\ndone 68\n",
        ..ONE
    },
    Row {
        stored: true,
        printed: b"events 42\npieces 19\noctets 868\nends 0\ndone 42\n",
        size: 52,
        ..ONE
    },
    Row {
        stored: true,
        file: &[0; 18],
        status: 3,
        printed: b"fault store not-a-store\n",
        size: 18,
        ..ONE
    },
    Row {
        disk_fails: 0,
        status: 5,
        printed: b"fault disk\n",
        ..ONE
    },
    Row {
        stored: true,
        disk_fails: 0,
        status: 5,
        printed: b"fault disk\n",
        ..ONE
    },
    Row {
        sink_fails: true,
        status: 7,
        printed: b"",
        ..ONE
    },
    Row {
        stored: true,
        sink_fails: true,
        status: 7,
        printed: b"",
        size: 52,
        ..ONE
    },
];

fn failing(alloc: Global, fails: bool, call: u64) -> Result<Vec<u64>, Fail> {
    let mut calls = Vec::new(alloc);
    if fails {
        calls.push(call)?;
    }
    Ok(calls)
}

fn disk_of(alloc: Global, row: &Row) -> Result<MemoryDisk, Fail> {
    if row.file.len() > 200 {
        return Err("a long file".into());
    }
    let octets = Octets::copy_of(alloc, row.file)?;
    let failing = failing(alloc, row.disk_fails < 1000, row.disk_fails)?;
    Ok(MemoryDisk::new(alloc, octets, 4096, failing, None)?)
}

#[test]
fn loads_are_counted(rt: HostRuntime) -> Result<(), Fail> {
    let alloc = rt.alloc();
    for row in &ROWS {
        if row.n == 0 || row.n > 60_000 {
            return Err("no such load".into());
        }
        let mut disk = disk_of(alloc, row)?;
        let mut out = MemorySink::new(alloc, failing(alloc, row.sink_fails, 0)?);
        let status = code(generate(alloc, row.n, row.stored, &mut disk, &mut out));
        assert!(rt; status == row.status);
        assert!(rt; out.written() == row.printed);
        assert!(rt; disk.as_slice().len() == row.size);
    }
    Ok(())
}

/// A call of the disk that fails behind the opening shuts the store, and the run ends.
#[test]
fn an_act_that_fails_ends_the_run(rt: HostRuntime) -> Result<(), Fail> {
    let alloc = rt.alloc();
    let mut ended: u64 = 0;
    for call in 0..40 {
        let row = Row {
            stored: true,
            disk_fails: call,
            ..ONE
        };
        let mut disk = disk_of(alloc, &row)?;
        let mut out = MemorySink::new(alloc, Vec::new(alloc));
        let status = code(generate(alloc, 1, true, &mut disk, &mut out));
        if status == 5 {
            assert!(rt; out.written() == b"fault disk\n".as_slice());
            ended = ended.saturating_add(1);
        } else {
            assert!(rt; status == 0);
        }
    }
    assert!(rt; ended > 5 && ended < 40);
    Ok(())
}

#[test]
fn the_end_is_given_behind_an_act_that_failed(rt: HostRuntime) -> Result<(), Fail> {
    let mut ports = GenPorts::new(rt.alloc(), 1, true);
    ports.note(Note::Again(0, false));
    assert!(rt; matches!(ports.next()?, Event::Open(0)));
    ports.note(Note::Shut(0));
    assert!(rt; matches!(ports.next()?, Event::Stop));
    Ok(())
}

#[test]
fn the_law_can_be_called() {
    the_generated_load();
}
