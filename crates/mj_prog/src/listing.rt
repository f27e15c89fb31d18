ghost use Rattle.std.specs.Prelude.{◌≡◌, ◌≤◌, IfOk, IfSome, IfNone};
ghost use Rattle.mj_base.specs.Writing.{WriteAdds, WriteCause};
ghost use Rattle.mj_ids.specs.Ids.{number_of};
ghost use Rattle.mj_prog.specs.Listing;
ghost use Rattle.mj_prog.specs.Listing.{IsOpenedAlone, ListingRow, Lists, Next, listed, upto};
ghost use Rattle.mj_prog.specs.Running.{fault_counts};
ghost use Rattle.mj_words.specs.SinkCounts.{counted};
ghost use Rattle.mj_prog.specs.StatusRows.{IsFileRow, IsUnopened, StatusCause, WriteStatusCause};
ghost use Rattle.mj_prog.specs.declared.status.Status;
ghost use Rattle.mj_store.specs.Opening.{NoneLawful};
ghost use Rattle.mj_store.specs.Standing.{IsTelling};
ghost use Rattle.mj_tickets.specs.Laws.{AreNumbered};

use super::finish::{finish_well, refuse_opening};
use super::status::Status;
use mj_base::{Limits, Name, NoMemory, Octets, Sink, WriteAnswer};
use mj_disk::Disk;
use mj_ids::TicketId;
use mj_store::Store;
use std::alloc::Global;

/// Prints the open tickets of the file that the disk is, by number.
pub fn list_tickets<D: Disk, K: Sink>(alloc: Global, disk: &mut D, out: &mut K) -> Status
    ensures lists { Lists (D.told disk.old) (λ tickets. ListingRow (listed tickets) (K.written out.old) (K.written out.new) result) }
    ensures cause { StatusCause (fault_counts (D.faults disk.old) (D.faults disk.new) 0 0 (K.faults out.old)) (K.faults out.new) result }
    ensures refused { IsFileRow (D.told disk.old) (D.told disk.new) (K.written out.old) (K.written out.new) (counted (K.faults out.old) (K.wants out.old)) (counted (K.faults out.new) (K.wants out.new)) result }
    ensures unlawful { IsTelling D.Disk disk.old → NoneLawful (D.told disk.old) → IsUnopened result }
    ensures read { ¬ (result ≡ Status.Read) }
    ensures line { ¬ (result ≡ Status.Line) }
    ensures words { ¬ (result ≡ Status.Words) }
    ensures opened_alone { IsOpenedAlone D.Disk disk.old disk.new }
{
    match Store::open(alloc, &Limits::standard(), disk) {
        Ok(store) => print_tickets(alloc, &store, out),
        Err(fault) => refuse_opening(alloc, fault, out),
    }
}

/// An open ticket.
#[derive(Drop)]
struct Listed {
    number: u64,
    id: TicketId,
    service: Name,
    /// Whether its reply is there.
    stored: bool,
}

/// Prints the open tickets, and how many they are.
fn print_tickets<K: Sink>(alloc: Global, store: &Store, out: &mut K) -> Status
    requires { AreNumbered store.now.index }
    ensures row { ListingRow (listed store.now.index.tickets) (K.written out.old) (K.written out.new) result }
    ensures cause { WriteStatusCause (K.faults out.old) (K.faults out.new) result }
    ensures disk { ¬ (result ≡ Status.Disk) }
{
    let mut after = 0;
    let mut count: u64 = 0;
    while let Some(ticket) = next_ticket(store, after) {
        after = ticket.number;
        match print_ticket(alloc, ticket, out) {
            WriteAnswer::Done => {}
            WriteAnswer::NoMemory => return Status::NoMemory,
            WriteAnswer::Failed => return Status::Write,
        }
        count = count.saturating_add(1);
    }
    finish_well(alloc, count, out)
}

/// The open ticket with the least number above this one.
fn next_ticket(store: &Store, after: u64) -> Option<Listed>
    requires { AreNumbered store.now.index }
    ensures next { IfSome result (λ ticket. Next after store.now.index ticket.number ticket.id ticket.service ticket.stored) }
    ensures none { IfNone result (upto after store.now.index ≡ store.now.index.tickets) }
{
    match store.listed(after) {
        Some((id, service, stored)) => Some(ticket_of(id, service, stored)),
        None => None,
    }
}

fn ticket_of(id: TicketId, service: &Name, stored: bool) -> Listed
    ensures number { result.number ≡ number_of id }
    ensures id { result.id ≡ id }
    ensures service { result.service ≡ service.now }
    ensures stored { result.stored ≡ stored }
{
    Listed {
        number: id.number(),
        id,
        service: service.copy(),
        stored,
    }
}

fn print_ticket<K: Sink>(alloc: Global, ticket: Listed, out: &mut K) -> WriteAnswer
    ensures octets { WriteAdds (K.written out.old) (K.written out.new) result (Listing.line_with ticket.number ticket.id ticket.stored ticket.service) }
    ensures later { K.faults out.old ≤ K.faults out.new }
    ensures cause { WriteCause (K.faults out.old) (K.faults out.new) result }
{
    match ticket_line(alloc, &ticket) {
        Ok(line) => out.write(line.as_slice()),
        Err(NoMemory) => WriteAnswer::NoMemory,
    }
}

fn ticket_line(alloc: Global, ticket: &Listed) -> Result<Octets, NoMemory>
    ensures { IfOk result (λ line. line ≡ Listing.line_with ticket.now.number ticket.now.id ticket.now.stored ticket.now.service) }
{
    let mut line = Octets::new(alloc);
    let number = ticket.number;
    let head = format!(in alloc; "ticket {number} ")?;
    line.push_all(head.as_bytes())?;
    line.push_all(&ticket.id.text())?;
    line.push_all(state_word(ticket.stored))?;
    line.push_all(ticket.service.as_slice())?;
    line.push_all(b"\n")?;
    Ok(line)
}

fn state_word(stored: bool) -> &'static [u8]
    ensures { result.now ≡ Listing.state_word stored }
{
    if stored { b" stored " } else { b" pending " }
}
