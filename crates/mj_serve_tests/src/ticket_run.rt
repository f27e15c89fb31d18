//! A ticket's run, from its request to its close, with the disk stopped at each of its calls.
use crate::recorder::Recorder;
use mj_base::{Event, Limits, Octets, Out};
use mj_disk::{Disk, MemoryDisk};
use mj_serve::{ServeFault, Summary, serve};
use mj_store::Store;
use std::alloc::Global;
use std::test::Fail;

/// Bytes that the disk has room for.
const ROOM: u64 = 4096;

/// A READY of a DEALER, which follows its greeting.
const READY: &[u8; 30] = b"\x04\x1c\x05READY\x0bSocket-Type\0\0\0\x06DEALER";

const SUBMIT: &[u8; 37] = b"\x01\0\x01\x06MDPC01\x01\x0ftitanic.request\x01\x04echo\0\x02hi";

/// The answer to a ticket's request that isn't kept.
const REFUSED: &[u8; 32] = b"\x01\0\x01\x06MDPC01\x01\x0ftitanic.request\0\x03500";

const FETCH: &[u8; 63] =
    b"\x01\0\x01\x06MDPC01\x01\x0dtitanic.reply\0\x24e56a5d40-28bd-8653-8000-000000000001";

const CLOSE: &[u8; 63] =
    b"\x01\0\x01\x06MDPC01\x01\x0dtitanic.close\0\x24e56a5d40-28bd-8653-8000-000000000001";

const SERVE: &[u8; 19] = b"\x01\0\x01\x06MDPW01\x01\x01\x01\0\x04echo";

const REPLY: &[u8; 31] =
    b"\x01\0\x01\x06MDPW01\x01\x01\x03\x01\x09T\0\0\0\0\0\0\0\x01\x01\0\0\x03hi!";

/// How many commands stand behind the event of each piece that is put where no call fails: the accept before `200`, the
/// reply before it is fetched, the close before its `200`.
const BEHIND: [u64; 11] = [0, 0, 1, 1, 1, 1, 1, 2, 3, 3, 3];

fn bytes(alloc: Global, lane: u32, octets: &[u8]) -> Result<Event, Fail> {
    Ok(Event::Bytes(lane, Octets::copy_of(alloc, octets)?))
}

fn hello(alloc: Global, lane: u32) -> Result<Event, Fail> {
    let mut octets = Octets::copy_of(alloc, b"\xff\0\0\0\0\0\0\0\0\x7f\x03\0NULL")?;
    octets.push_all(&[0; 48])?;
    octets.push_all(READY)?;
    Ok(Event::Bytes(lane, octets))
}

fn events(alloc: Global) -> Result<Vec<Event>, Fail> {
    let mut events = Vec::new(alloc);
    events.push(Event::Open(0))?;
    events.push(hello(alloc, 0)?)?;
    events.push(bytes(alloc, 0, SUBMIT)?)?;
    events.push(bytes(alloc, 0, FETCH)?)?;
    events.push(Event::Open(1))?;
    events.push(hello(alloc, 1)?)?;
    events.push(bytes(alloc, 1, SERVE)?)?;
    events.push(bytes(alloc, 1, REPLY)?)?;
    events.push(bytes(alloc, 0, FETCH)?)?;
    events.push(bytes(alloc, 0, CLOSE)?)?;
    events.push(bytes(alloc, 0, CLOSE)?)?;
    events.push(bytes(alloc, 0, FETCH)?)?;
    Ok(events)
}

/// How a run went, what its ports were given, and its disk.
#[derive(Drop)]
struct Ended {
    answer: Result<Summary, ServeFault>,
    ports: Recorder,
    disk: MemoryDisk,
}

/// The run over an empty file. The calls of these numbers fail, and all from the number to stop at on.
fn run(alloc: Global, failing: Vec<u64>, stop: Option<u64>) -> Result<Ended, Fail> {
    let mut disk = MemoryDisk::new(alloc, Octets::new(alloc), ROOM, failing, stop)?;
    let Some(mut ports) = Recorder::new(alloc, 2, events(alloc)?) else {
        return Err("too many events".into());
    };
    let answer = serve(
        alloc,
        &Limits::standard(),
        [0; 32],
        true,
        &mut ports,
        &mut disk,
    );
    Ok(Ended {
        answer,
        ports,
        disk,
    })
}

/// The moments at which pieces were given.
fn moments(alloc: Global, ports: &Recorder) -> Result<Vec<u64>, Fail> {
    let mut moments = Vec::new(alloc);
    for kept in &ports.given {
        if let Some(moment) = kept.moment {
            moments.push(moment)?;
        }
    }
    Ok(moments)
}

/// How many commands stand behind the pieces that were given up to a moment.
fn behind(moments: &[u64], moment: u64) -> u64 {
    let mut most = 0;
    for (given, commands) in moments.iter().zip(&BEHIND) {
        if *given <= moment && *commands > most {
            most = *commands;
        }
    }
    most
}

/// Where the closed gate of a file stands, which must open.
fn gate_in(alloc: Global, file: Octets) -> Result<u64, Fail> {
    if file.len() as u64 > ROOM {
        return Err("a long file".into());
    }
    let mut disk = MemoryDisk::new(alloc, file, ROOM, Vec::new(alloc), None)?;
    let Ok(store) = Store::open(alloc, &Limits::standard(), &mut disk) else {
        return Err("a file that isn't opened".into());
    };
    Ok(store.end())
}

/// How many commands a file opens as, told from where its closed gate stands.
fn commands_in(alloc: Global, file: Octets) -> Result<u64, Fail> {
    match gate_in(alloc, file)? {
        16 => Ok(0),
        51 => Ok(1),
        74 => Ok(2),
        88 => Ok(3),
        _ => Err("another file".into()),
    }
}

#[test]
fn a_ticket_is_served(rt: HostRuntime) -> Result<(), Fail> {
    let alloc = rt.alloc();
    let whole = run(alloc, Vec::new(alloc), None)?;
    let answer = Ok(Summary {
        events: 12,
        pieces: 11,
    });
    assert!(rt; whole.answer == answer);
    assert!(rt; !whole.ports.lost);
    assert!(rt; moments(alloc, &whole.ports)?.len() == 11);
    assert!(rt; whole.disk.as_slice().len() == 89);
    Ok(())
}

#[test]
fn each_image_since_a_piece_has_what_stands_behind_it(rt: HostRuntime) -> Result<(), Fail> {
    let alloc = rt.alloc();
    let whole = run(alloc, Vec::new(alloc), None)?;
    let moments = moments(alloc, &whole.ports)?;
    let calls = whole.disk.moment();
    assert!(rt; calls < 100);
    for stop in 0..=calls {
        let stopped = run(alloc, Vec::new(alloc), Some(stop))?;
        for k in 0..3 {
            let commands = commands_in(alloc, stopped.disk.image(alloc, k)?)?;
            assert!(rt; commands >= behind(moments.as_slice(), stop));
        }
    }
    Ok(())
}

/// How many notes were given.
fn notes(ports: &Recorder) -> usize {
    ports
        .given
        .iter()
        .filter(|kept| matches!(&kept.out, Out::Note(_note)))
        .count()
}

#[test]
fn a_run_goes_on_behind_a_failed_call(rt: HostRuntime) -> Result<(), Fail> {
    let alloc = rt.alloc();
    let whole = run(alloc, Vec::new(alloc), None)?;
    let calls = whole.disk.moment();
    assert!(rt; calls < 100);
    let refused = Err(ServeFault::DiskFault);
    for call in 0..calls {
        let mut failing = Vec::new(alloc);
        failing.push(call)?;
        let ended = run(alloc, failing, None)?;
        if ended.answer == refused {
            assert!(rt; ended.ports.given.is_empty());
        } else {
            assert!(rt; ended.answer.is_ok());
            assert!(rt; notes(&ended.ports) > 0);
        }
        for k in 0..3 {
            gate_in(alloc, ended.disk.image(alloc, k)?)?;
        }
    }
    Ok(())
}

/// The last piece that was given.
fn last_piece(ports: &Recorder) -> &[u8] {
    for kept in ports.given.iter().rev() {
        if let Out::Piece(_lane, piece) = &kept.out {
            return piece.as_slice();
        }
    }
    b""
}

#[test]
fn a_store_of_one_ticket_refuses_a_second(rt: HostRuntime) -> Result<(), Fail> {
    let alloc = rt.alloc();
    let mut limits = Limits::standard();
    limits.tickets = 1;
    let mut events = Vec::new(alloc);
    events.push(Event::Open(0))?;
    events.push(hello(alloc, 0)?)?;
    events.push(bytes(alloc, 0, SUBMIT)?)?;
    events.push(bytes(alloc, 0, SUBMIT)?)?;
    let Some(mut ports) = Recorder::new(alloc, 2, events) else {
        return Err("too many events".into());
    };
    let mut disk = MemoryDisk::new(alloc, Octets::new(alloc), ROOM, Vec::new(alloc), None)?;
    let answer = serve(alloc, &limits, [0; 32], true, &mut ports, &mut disk);
    assert!(rt; answer.is_ok());
    assert!(rt; last_piece(&ports) == REFUSED.as_slice());
    assert!(rt; disk.as_slice().len() == 52);
    Ok(())
}
