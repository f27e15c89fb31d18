//! What the tests are made of: files, and the calls of a store with what they ask.
ghost use Rattle.std.specs.Prelude.{◌≡◌, false, IfOk};
ghost use Rattle.mj_store.specs.Commands.{CanBeKept};
ghost use Rattle.mj_store.specs.Standing.{IsHeld};

use mj_base::{Frames, Name, NoMemory, Octets};
use mj_disk::{Disk, MemoryDisk};
use mj_ids::TicketId;
use mj_store::{AcceptFault, AppendFault, BodyFault, Store, can_be_kept};
use std::alloc::Global;
use std::test::Fail;

pub const HEADER_1: &[u8; 16] = b"MJTSTOR1\0\0\0\0\0\0\0\0";

pub const HEADER_2: &[u8; 16] = b"MJTSTOR2\0\0\0\0\0\0\0\x01";

/// Gates and records of an accept of `hi` for `echo`, of the reply `hi!` and of the close, from offset 16 on.
pub const RECORDS: &[u8; 73] =
    b"\x01\0\0\0\x1e\x41\xe5\x6a\x5d\x40\x28\xbd\x86\x53\x80\0\0\0\0\0\0\x01\x04echo\0\x01\0\0\0\x02hi\x01\0\0\0\x12\x53\0\0\0\0\0\0\0\x01\0\x01\0\0\0\x03hi!\x01\0\0\0\x09\x43\0\0\0\0\0\0\0\x01\0";

/// The file with so many bytes of gates and records, and a closed gate.
pub fn file_of(alloc: Global, header: &[u8; 16], len: usize) -> Result<Octets, Fail> {
    let mut octets = Octets::new(alloc);
    octets.push_all(header)?;
    octets.push_all(RECORDS.get(..len).ok_or("so many bytes")?)?;
    octets.push_all(&[0])?;
    Ok(octets)
}

pub fn disk_of(alloc: Global, bytes: &[u8], failing: Vec<u64>) -> Result<MemoryDisk, Fail> {
    let mut octets = Octets::new(alloc);
    octets.push_all(bytes)?;
    if octets.len() > 200 {
        return Err("no room".into());
    }
    Ok(MemoryDisk::new(alloc, octets, 200, failing, None)?)
}

fn body_of(alloc: Global, frame: &[u8]) -> Result<Frames, NoMemory>
    ensures { IfOk result (λ body. CanBeKept body) }
{
    let mut body = Frames::new(alloc);
    body.push(frame)?;
    if can_be_kept(&body) {
        Ok(body)
    } else {
        Err(NoMemory)
    }
}

/// Accepts a body of one frame for `echo`, under a seed of zeros.
pub fn accept<D: Disk>(
    alloc: Global,
    store: &mut Store,
    disk: &mut D,
    frame: &[u8],
) -> Result<TicketId, AcceptFault>
    requires { store.old.spent ≡ false → IsHeld D.Disk store.old disk.old }
    ensures { store.new.spent ≡ false → IsHeld D.Disk store.new disk.new }
{
    let Some(service) = Name::of(b"echo") else {
        return Err(AcceptFault::NoMemory);
    };
    let Ok(body) = body_of(alloc, frame) else {
        return Err(AcceptFault::NoMemory);
    };
    store.accept(alloc, disk, &[0; 32], &service, &body)
}

/// Stores a reply of one frame, where the ticket is pending.
pub fn reply<D: Disk>(
    alloc: Global,
    store: &mut Store,
    disk: &mut D,
    number: u64,
    frame: &[u8],
) -> Result<(), AppendFault>
    requires { store.old.spent ≡ false → IsHeld D.Disk store.old disk.old }
    ensures { store.new.spent ≡ false → IsHeld D.Disk store.new disk.new }
{
    if !store.is_pending(number) {
        return Err(AppendFault::NoMemory);
    }
    let Ok(body) = body_of(alloc, frame) else {
        return Err(AppendFault::NoMemory);
    };
    store.store_reply(alloc, disk, number, &body)
}

/// Closes a ticket that is open.
pub fn close<D: Disk>(
    alloc: Global,
    store: &mut Store,
    disk: &mut D,
    number: u64,
) -> Result<(), AppendFault>
    requires { store.old.spent ≡ false → IsHeld D.Disk store.old disk.old }
    ensures { store.new.spent ≡ false → IsHeld D.Disk store.new disk.new }
{
    if !store.is_open(number) {
        return Err(AppendFault::NoMemory);
    }
    store.close(alloc, disk, number)
}

/// The body of a ticket that is open.
pub fn body<D: Disk>(
    alloc: Global,
    store: &mut Store,
    disk: &mut D,
    number: u64,
) -> Result<Frames, BodyFault>
    requires { store.old.spent ≡ false → IsHeld D.Disk store.old disk.old }
    ensures { store.new.spent ≡ false → IsHeld D.Disk store.new disk.new }
{
    if !store.is_open(number) {
        return Err(BodyFault::NoMemory);
    }
    store.body(alloc, disk, number)
}

/// The reply of a ticket that is open and not pending.
pub fn reply_body<D: Disk>(
    alloc: Global,
    store: &mut Store,
    disk: &mut D,
    number: u64,
) -> Result<Frames, BodyFault>
    requires { store.old.spent ≡ false → IsHeld D.Disk store.old disk.old }
    ensures { store.new.spent ≡ false → IsHeld D.Disk store.new disk.new }
{
    if !store.is_open(number) || store.is_pending(number) {
        return Err(BodyFault::NoMemory);
    }
    store.reply_body(alloc, disk, number)
}

/// Whether the body is this frame alone.
pub fn is_frame(body: &Result<Frames, BodyFault>, frame: &[u8]) -> bool {
    match body {
        Ok(frames) => match frames.get(0) {
            Some(first) => frames.len() == 1 && first == frame,
            None => false,
        },
        Err(_) => false,
    }
}
