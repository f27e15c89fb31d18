//! What the tests are made of.
use mj_base::{Frames, Name, NoMemory, Octets};
use mj_ids::TicketId;
use mj_tickets::{ApplyFault, TicketCmd, Tickets, read_cmd, write_cmd};
use std::alloc::Global;
use std::test::Fail;

/// The id of a ticket under a seed of zeros.
pub fn id(number: u32) -> TicketId {
    TicketId::of(&[0; 32], u64::from(number))
}

pub fn accept(alloc: Global, number: u32) -> Result<TicketCmd, Fail> {
    Ok(TicketCmd::Accept {
        id: id(number),
        service: Name::of(b"later").ok_or("a name")?,
        body: Frames::new(alloc),
    })
}

pub fn store(alloc: Global, number: u64, frame: &[u8]) -> Result<TicketCmd, NoMemory> {
    let mut body = Frames::new(alloc);
    body.push(frame)?;
    Ok(TicketCmd::Store { number, body })
}

/// The payload of a command that fits.
pub fn written(alloc: Global, cmd: &TicketCmd) -> Result<Octets, NoMemory> {
    let mut out = Octets::new(alloc);
    if cmd.fits() {
        write_cmd(cmd, &mut out)?;
    }
    Ok(out)
}

pub fn is_command(alloc: Global, octets: &[u8]) -> Result<bool, NoMemory> {
    Ok(read_cmd(alloc, octets)?.is_some())
}

/// Applies a command that fits.
pub fn apply(tickets: &mut Tickets, cmd: &TicketCmd, at: u32) -> Result<(), ApplyFault> {
    if cmd.fits() {
        tickets.apply(cmd, u64::from(at))
    } else {
        Err(ApplyFault::NoMemory)
    }
}
