ghost use Rattle.std.specs.Prelude.{◌≡◌, false};
ghost use Rattle.mj_store.specs.Standing.{IsHeld};

use crate::made::{
    HEADER_1, HEADER_2, RECORDS, accept, body, close, disk_of, file_of, is_frame, reply, reply_body,
};
use crate::silent::SilentDisk;
use mj_base::{Frames, Limits, Octets};
use mj_disk::{Disk, MemoryDisk};
use mj_ids::TicketId;
use mj_store::{AcceptFault, BodyFault, OpenFault, Store, images_open_again};
use mj_tickets::TicketState;
use std::alloc::Global;
use std::test::Fail;

const ID_1: &[u8; 36] = b"e56a5d40-28bd-8653-8000-000000000001";

const ID_2: &[u8; 36] = b"b819d2bd-1aed-8da0-8000-000000000002";

/// How a file answers an opening: the number of the next ticket, and where the closed gate stands.
fn opened(alloc: Global, bytes: &[u8]) -> Result<Result<(u64, u64), OpenFault>, Fail> {
    let mut disk = disk_of(alloc, bytes, Vec::new(alloc))?;
    match Store::open(alloc, &Limits::standard(), &mut disk) {
        Ok(store) => Ok(Ok((store.next(), store.end()))),
        Err(fault) => Ok(Err(fault)),
    }
}

/// A call for the first ticket.
#[derive(Clone, Copy)]
enum Call {
    Accept,
    Reply,
    Close,
}

/// Whether the call is done, an accept for the first ticket.
fn is_done<D: Disk>(alloc: Global, store: &mut Store, disk: &mut D, call: Call) -> bool
    requires { store.old.spent ≡ false → IsHeld D.Disk store.old disk.old }
    ensures { store.new.spent ≡ false → IsHeld D.Disk store.new disk.new }
{
    match call {
        Call::Accept => match accept(alloc, store, disk, b"hi") {
            Ok(id) => id.text() == *ID_1,
            Err(_) => false,
        },
        Call::Reply => reply(alloc, store, disk, 1, b"hi!") == Ok(()),
        Call::Close => close(alloc, store, disk, 1) == Ok(()),
    }
}

/// Whether the disk is the file with so many bytes of gates and records.
fn holds(alloc: Global, disk: &MemoryDisk, header: &[u8; 16], len: usize) -> Result<bool, Fail> {
    Ok(disk.as_slice() == file_of(alloc, header, len)?.as_slice())
}

/// Whether the call is done, and leaves the ticket and the file so.
fn goes_on(
    alloc: Global,
    store: &mut Store,
    disk: &mut MemoryDisk,
    header: &[u8; 16],
    row: (Call, TicketState, usize),
) -> Result<bool, Fail>
    requires { store.old.spent ≡ false → IsHeld ⟦<MemoryDisk as Disk>⟧ store.old disk.old }
    ensures { store.new.spent ≡ false → IsHeld ⟦<MemoryDisk as Disk>⟧ store.new disk.new }
{
    let (call, state, len) = row;
    let done = is_done(alloc, store, disk, call);
    let found = store.look(&TicketId::of(&[0; 32], 1));
    Ok(done && found == state && holds(alloc, disk, header, len)?)
}

/// Whether the first ticket is accepted and answered.
fn is_answered(
    alloc: Global,
    store: &mut Store,
    disk: &mut MemoryDisk,
    header: &[u8; 16],
) -> Result<bool, Fail>
    requires { store.old.spent ≡ false → IsHeld ⟦<MemoryDisk as Disk>⟧ store.old disk.old }
    ensures { store.new.spent ≡ false → IsHeld ⟦<MemoryDisk as Disk>⟧ store.new disk.new }
{
    let accepted = (Call::Accept, TicketState::Pending, 35);
    if !goes_on(alloc, store, disk, header, accepted)? {
        return Ok(false);
    }
    let answered = (Call::Reply, TicketState::Stored, 58);
    goes_on(alloc, store, disk, header, answered)
}

/// Whether a ticket lives and ends as it should over a file that begins so.
fn lives(alloc: Global, start: &[u8], header: &[u8; 16]) -> Result<bool, Fail> {
    let mut disk = disk_of(alloc, start, Vec::new(alloc))?;
    let Ok(mut store) = Store::open(alloc, &Limits::standard(), &mut disk) else {
        return Ok(false);
    };
    if !is_answered(alloc, &mut store, &mut disk, header)? {
        return Ok(false);
    }
    let closed = (Call::Close, TicketState::Unknown, 72);
    goes_on(alloc, &mut store, &mut disk, header, closed)
}

#[test]
fn a_ticket_is_accepted_answered_and_closed(rt: HostRuntime) -> Result<(), Fail> {
    let file = file_of(rt.alloc(), HEADER_1, 0)?;
    assert!(rt; lives(rt.alloc(), file.as_slice(), HEADER_1)?);
    assert!(rt; lives(rt.alloc(), b"", HEADER_2)?);
    Ok(())
}

#[test]
fn a_closed_tickets_file_opens_behind_it(rt: HostRuntime) -> Result<(), Fail> {
    for header in [HEADER_1, HEADER_2] {
        let file = file_of(rt.alloc(), header, 72)?;
        assert!(rt; file.len() == 89);
        assert!(rt; opened(rt.alloc(), file.as_slice())? == Ok((2, 88)));
    }
    Ok(())
}

/// Whether body and reply of the first ticket are read from the file, which stays as it is.
fn are_read(alloc: Global, header: &[u8; 16]) -> Result<bool, Fail> {
    let file = file_of(alloc, header, 58)?;
    let mut disk = disk_of(alloc, file.as_slice(), Vec::new(alloc))?;
    let Ok(mut store) = Store::open(alloc, &Limits::standard(), &mut disk) else {
        return Ok(false);
    };
    let body = is_frame(&body(alloc, &mut store, &mut disk, 1), b"hi");
    let reply = is_frame(&reply_body(alloc, &mut store, &mut disk, 1), b"hi!");
    Ok(body && reply && disk.as_slice() == file.as_slice())
}

#[test]
fn a_body_and_a_reply_are_read_from_the_file(rt: HostRuntime) -> Result<(), Fail> {
    for header in [HEADER_1, HEADER_2] {
        assert!(rt; are_read(rt.alloc(), header)?);
    }
    Ok(())
}

#[test]
fn a_payload_that_is_no_command_or_unlawful_is_damage(rt: HostRuntime) -> Result<(), Fail> {
    let alloc = rt.alloc();
    // The kind of the close, the first byte of the service's name, and the number that is closed.
    for (at, octet, gate) in [(79, 0x53, 74), (39, 0x0a, 16), (87, 0x02, 74)] {
        let file = file_of(alloc, HEADER_2, 72)?;
        let mut bytes = Vec::from_slice(alloc, file.as_slice())?;
        *bytes.get_mut(at).ok_or("a byte")? = octet;
        assert!(rt;
            opened(alloc, &bytes)? == Err(OpenFault::Damaged(gate)),
            "{at}"
        );
    }
    Ok(())
}

/// Whether a ticket was accepted, or else the store was full.
fn is_as_wanted(answer: &Result<TicketId, AcceptFault>, is_accepted: bool) -> bool {
    match answer {
        Ok(_) => is_accepted,
        Err(fault) => !is_accepted && *fault == AcceptFault::Full,
    }
}

/// Whether the first and the second accept are as wanted, in a store of these limits.
fn fills(alloc: Global, limits: &Limits, first: bool, second: bool) -> Result<bool, Fail> {
    let mut disk = disk_of(alloc, b"", Vec::new(alloc))?;
    let Ok(mut store) = Store::open(alloc, limits, &mut disk) else {
        return Ok(false);
    };
    let one = accept(alloc, &mut store, &mut disk, b"hi");
    let two = accept(alloc, &mut store, &mut disk, b"hi");
    Ok(is_as_wanted(&one, first) && is_as_wanted(&two, second))
}

#[test]
fn a_full_store_says_so(rt: HostRuntime) -> Result<(), Fail> {
    let standard = Limits::standard();
    for (file, tickets, first, second) in [
        (51, 65_536, false, false),
        (52, 65_536, true, false),
        (86, 65_536, true, false),
        (87, 65_536, true, true),
        (200, 1, true, false),
        (200, 0, false, false),
    ] {
        let limits = Limits {
            file,
            tickets,
            ..standard
        };
        assert!(rt;
            fills(rt.alloc(), &limits, first, second)?,
            "{file} {tickets}"
        );
    }
    Ok(())
}

/// Whether what is read is damaged at this offset.
fn is_damaged(body: &Result<Frames, BodyFault>, at: u64) -> bool {
    match body {
        Err(BodyFault::Damaged(found)) => *found == at,
        _ => false,
    }
}

/// What a store over the file reads of body and reply, where somebody else has written a byte since it was opened.
fn changed(
    alloc: Global,
    at: usize,
) -> Result<(Result<Frames, BodyFault>, Result<Frames, BodyFault>), Fail> {
    let file = file_of(alloc, HEADER_2, 58)?;
    let mut disk = SilentDisk::new(alloc, file.as_slice())?;
    let Ok(mut store) = Store::open(alloc, &Limits::standard(), &mut disk) else {
        return Err("an opening".into());
    };
    disk.change(at, 2);
    let first = body(alloc, &mut store, &mut disk, 1);
    let second = reply_body(alloc, &mut store, &mut disk, 1);
    Ok((first, second))
}

/// The counts of frames of the body at 43 and of the reply at 65 say 2 where one frame stands.
#[test]
fn a_body_that_somebody_else_changed_is_damaged(rt: HostRuntime) -> Result<(), Fail> {
    let (body, reply) = changed(rt.alloc(), 44)?;
    assert!(rt; is_damaged(&body, 43) && is_frame(&reply, b"hi!"));
    let (body, reply) = changed(rt.alloc(), 66)?;
    assert!(rt; is_frame(&body, b"hi") && is_damaged(&reply, 65));
    Ok(())
}

/// The file of format 1 behind one accept more, whose ticket is the second.
fn grown(alloc: Global) -> Result<Octets, Fail> {
    let file = file_of(alloc, HEADER_1, 72)?;
    let mut disk = disk_of(alloc, file.as_slice(), Vec::new(alloc))?;
    let Ok(mut store) = Store::open(alloc, &Limits::standard(), &mut disk) else {
        return Err("an opening".into());
    };
    match accept(alloc, &mut store, &mut disk, b"hi") {
        Ok(id) if id.text() == *ID_2 => Ok(Octets::copy_of(alloc, disk.as_slice())?),
        _ => Err("an accept".into()),
    }
}

#[test]
fn a_file_of_format_1_goes_on_in_format_1(rt: HostRuntime) -> Result<(), Fail> {
    let now = grown(rt.alloc())?;
    let now = now.as_slice();
    assert!(rt; now.len() == 124 && now.get(..16) == Some(HEADER_1.as_slice()));
    assert!(rt; now.get(16..88) == RECORDS.get(..72));
    assert!(rt; opened(rt.alloc(), now)? == Ok((3, 123)));
    Ok(())
}

/// What becomes of a store of which one call of the disk fails.
#[derive(Clone, Copy, PartialEq, Eq)]
enum Ended {
    /// It isn't opened.
    Unopened,
    /// It reads the body.
    Well,
    /// It doesn't, and from then on each call answers that it is spent.
    Spent,
    /// It answers something else.
    Otherwise,
}

/// Whether each call of a spent store says so.
fn says_spent<D: Disk>(alloc: Global, store: &mut Store, disk: &mut D) -> bool
    requires { store.old.spent ≡ false → IsHeld D.Disk store.old disk.old }
{
    let read = body(alloc, store, disk, 1);
    let accepted = accept(alloc, store, disk, b"hi");
    matches!(&read, Err(BodyFault::Spent)) && matches!(&accepted, Err(AcceptFault::Spent))
}

fn read_over<D: Disk>(alloc: Global, disk: &mut D) -> Ended {
    let Ok(mut store) = Store::open(alloc, &Limits::standard(), disk) else {
        return Ended::Unopened;
    };
    match body(alloc, &mut store, disk, 1) {
        Ok(_) => Ended::Well,
        Err(BodyFault::DiskFault) if says_spent(alloc, &mut store, disk) => Ended::Spent,
        Err(_) => Ended::Otherwise,
    }
}

fn failing_at(alloc: Global, call: u64) -> Result<Ended, Fail> {
    let file = file_of(alloc, HEADER_2, 35)?;
    let mut failing = Vec::new(alloc);
    failing.push(call)?;
    let mut disk = disk_of(alloc, file.as_slice(), failing)?;
    Ok(read_over(alloc, &mut disk))
}

#[test]
fn a_call_that_fails_spends_the_store(rt: HostRuntime) -> Result<(), Fail> {
    let mut spent: u32 = 0;
    for call in 0..20 {
        let ended = failing_at(rt.alloc(), call)?;
        assert!(rt; ended != Ended::Otherwise, "{call}");
        if ended == Ended::Spent {
            spent = spent.saturating_add(1);
        }
    }
    assert!(rt; spent == 1);
    Ok(())
}

/// A store with a ticket that is answered and one that is pending.
fn two_tickets(alloc: Global) -> Result<Store, Fail> {
    let file = file_of(alloc, HEADER_2, 58)?;
    let mut disk = disk_of(alloc, file.as_slice(), Vec::new(alloc))?;
    let Ok(mut store) = Store::open(alloc, &Limits::standard(), &mut disk) else {
        return Err("an opening".into());
    };
    match accept(alloc, &mut store, &mut disk, b"") {
        Ok(id) if id == TicketId::of(&[0; 32], 2) => Ok(store),
        _ => Err("an accept".into()),
    }
}

#[test]
fn what_memory_knows_is_told(rt: HostRuntime) -> Result<(), Fail> {
    let store = two_tickets(rt.alloc())?;
    assert!(rt; store.next() == 3 && store.end() == 107);
    for (number, is_open, is_pending) in [(0, false, false), (1, true, false), (2, true, true)] {
        assert!(rt; store.is_open(number) == is_open, "{number}");
        assert!(rt; store.is_pending(number) == is_pending, "{number}");
    }
    Ok(())
}

/// The next pending ticket, where it is of `echo`.
fn pending_of(store: &Store, after: u64) -> Option<u64> {
    match store.pending(after) {
        Some((number, service)) if service.as_slice() == b"echo".as_slice() => Some(number),
        _ => None,
    }
}

/// The next ticket, where it is of `echo`, and whether its reply is stored.
fn listed_of(store: &Store, after: u64) -> Option<(u64, bool)> {
    match store.listed(after) {
        Some((id, service, stored)) if service.as_slice() == b"echo".as_slice() => {
            Some((id.number(), stored))
        }
        _ => None,
    }
}

#[test]
fn tickets_are_found_by_number(rt: HostRuntime) -> Result<(), Fail> {
    let store = two_tickets(rt.alloc())?;
    assert!(rt; pending_of(&store, 0) == Some(2));
    assert!(rt; pending_of(&store, 2).is_none());
    assert!(rt; listed_of(&store, 0) == Some((1, true)));
    assert!(rt; listed_of(&store, 1) == Some((2, false)));
    assert!(rt; listed_of(&store, 2).is_none());
    Ok(())
}

#[test]
fn the_law_of_images_can_be_called() {
    images_open_again::<MemoryDisk>();
}
