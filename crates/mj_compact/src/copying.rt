//! Tickets, from the old file to the one in the making.
ghost use Rattle.std.specs.Prelude.{◌≡◌, ◌≢◌, ◌≤◌, ◌<◌, ◌^◌, ◌⊎◌, ◌∷◌, [], ◌++◌, true, false, length, List, ℕ, None, Some, is_some, OnOk, IfOk, IfErr, IfSome, IfNone, option_map};
ghost use Rattle.mj_base.specs.Rising.{Rose};
ghost use Rattle.mj_ids.specs.Ids.{number_of};
ghost use Rattle.mj_store.specs.Bodies.{reply_at, GivesBody, GivesReply};
ghost use Rattle.mj_store.specs.Standing.{IsHeld, IsTelling, Keeps};
ghost use Rattle.mj_tickets.specs.Fold.{Fold, Ticket, number_in, open_above, ticket_of};
ghost use Rattle.mj_tickets.specs.Laws.{AreNumbered};
ghost use Rattle.mj_tickets.specs.Index.{listed_as};
ghost use Rattle.mj_tickets.specs.Payload.{Fits};
ghost use Rattle.mj_tickets.specs.declared.place.Place.{Place};
ghost use Rattle.mj_compact.specs.Compacting.{Adds, Copies, CopiesAll, CopiesReply, FitsAccept, FitsReply, HasCause, IsDamage, IsGoing, IsListed, IsNext, IsOfCopying, Reads, Writes};
ghost use Rattle.mj_compact.specs.Kept.{kept_ticket, upto};

use crate::fault::CompactFault;
use mj_base::{Frames, Name, Octets};
use mj_disk::Disk;
use mj_ids::TicketId;
use mj_journal::{AppendFault, Making};
use mj_store::{BodyFault, Store};
use mj_tickets::{TicketCmd, write_cmd};
use std::alloc::Global;

/// Appends a command to the file in the making.
fn append<E: Disk>(
    alloc: Global,
    making: &mut Making,
    new: &mut E,
    cmd: &TicketCmd,
) -> Result<(), CompactFault>
    requires fits { Fits cmd.now }
    requires going { IsGoing E.Disk making.old new.old }
    ensures added { OnOk result (Adds E.Disk (cmd.now ∷ []) making.old new.old making.new new.new) }
    ensures going { OnOk result (IsGoing E.Disk making.new new.new) }
    ensures writes { Writes E.Disk making.old new.old making.new new.new }
    ensures kind { IfErr result IsOfCopying }
    ensures whole { IfErr result (λ fault. IsDamage fault → ⊥) }
    ensures cause { IfErr result (λ fault. fault ≡ CompactFault.DiskFault → Rose (E.faults new.old) (E.faults new.new)) }
{
    let mut payload = Octets::new(alloc);
    let Ok(()) = write_cmd(cmd, &mut payload) else {
        return Err(CompactFault::NoMemory);
    };
    match making.append(alloc, new, payload.as_slice()) {
        Ok(()) => Ok(()),
        Err(AppendFault::Spent) => unreachable!(),
        Err(AppendFault::NoMemory) => Err(CompactFault::NoMemory),
        Err(AppendFault::DiskFault) => Err(CompactFault::DiskFault),
    }
}

/// Reads the body of an open ticket.
fn read_body<D: Disk>(
    alloc: Global,
    store: &mut Store,
    old: &mut D,
    number: u64,
) -> Result<Frames, CompactFault>
    requires open { ticket_of number store.old.index ≢ None }
    requires held { (store.old.spent ≡ false) × IsHeld D.Disk store.old old.old }
    ensures body { IfOk result (GivesBody D.Disk number store.old old.old) }
    ensures fits { IfOk result (FitsAccept number store.old.index) }
    ensures same { OnOk result (store.new ≡ store.old) }
    ensures held { OnOk result (IsHeld D.Disk store.new old.new) }
    ensures keeps { OnOk result (Keeps D.Disk store.old old.old store.new old.new) }
    ensures reads { Reads D.Disk old.old old.new }
    ensures cause { IfErr result (λ fault. fault ≡ CompactFault.DiskFault → Rose (D.faults old.old) (D.faults old.new)) }
    ensures kind { IfErr result IsOfCopying }
    ensures whole { IfErr result (λ fault. IsDamage fault → IsTelling D.Disk old.old → ⊥) }
{
    match store.body(alloc, old, number) {
        Ok(body) => Ok(body),
        Err(BodyFault::Spent) => unreachable!(),
        Err(BodyFault::NoMemory) => Err(CompactFault::NoMemory),
        Err(BodyFault::DiskFault) => Err(CompactFault::DiskFault),
        Err(BodyFault::Damaged(at)) => Err(CompactFault::Damaged(at)),
    }
}

/// Reads the stored reply of an open ticket.
fn read_reply<D: Disk>(
    alloc: Global,
    store: &mut Store,
    old: &mut D,
    number: u64,
) -> Result<Frames, CompactFault>
    requires stored { reply_at number store.old.index ≢ None }
    requires held { (store.old.spent ≡ false) × IsHeld D.Disk store.old old.old }
    ensures body { IfOk result (GivesReply D.Disk number store.old old.old) }
    ensures fits { IfOk result FitsReply }
    ensures same { OnOk result (store.new ≡ store.old) }
    ensures held { OnOk result (IsHeld D.Disk store.new old.new) }
    ensures keeps { OnOk result (Keeps D.Disk store.old old.old store.new old.new) }
    ensures reads { Reads D.Disk old.old old.new }
    ensures cause { IfErr result (λ fault. fault ≡ CompactFault.DiskFault → Rose (D.faults old.old) (D.faults old.new)) }
    ensures kind { IfErr result IsOfCopying }
    ensures whole { IfErr result (λ fault. IsDamage fault → IsTelling D.Disk old.old → ⊥) }
{
    match store.reply_body(alloc, old, number) {
        Ok(body) => Ok(body),
        Err(BodyFault::Spent) => unreachable!(),
        Err(BodyFault::NoMemory) => Err(CompactFault::NoMemory),
        Err(BodyFault::DiskFault) => Err(CompactFault::DiskFault),
        Err(BodyFault::Damaged(at)) => Err(CompactFault::Damaged(at)),
    }
}

/// Copies the stored reply of an open ticket, where it has one.
fn copy_reply<D: Disk, E: Disk>(
    alloc: Global,
    store: &mut Store,
    old: &mut D,
    making: &mut Making,
    new: &mut E,
    number: u64,
    stored: bool,
) -> Result<(), CompactFault>
    requires open { (t : Ticket Place) × (ticket_of number store.old.index ≡ Some t) × (is_some t.reply ≡ stored) }
    requires held { (store.old.spent ≡ false) × IsHeld D.Disk store.old old.old }
    requires going { IsGoing E.Disk making.old new.old }
    ensures copied { OnOk result (CopiesReply D.Disk E.Disk number store.old old.old making.old new.old making.new new.new) }
    ensures same { OnOk result (store.new ≡ store.old) }
    ensures held { OnOk result (IsHeld D.Disk store.new old.new) }
    ensures keeps { OnOk result (Keeps D.Disk store.old old.old store.new old.new) }
    ensures reads { Reads D.Disk old.old old.new }
    ensures going { OnOk result (IsGoing E.Disk making.new new.new) }
    ensures writes { Writes E.Disk making.old new.old making.new new.new }
    ensures cause { IfErr result (HasCause (D.faults old.old) (D.faults old.new) (E.faults new.old) (E.faults new.new)) }
    ensures kind { IfErr result IsOfCopying }
    ensures whole { IfErr result (λ fault. IsDamage fault → IsTelling D.Disk old.old → ⊥) }
{
    if !stored {
        return Ok(());
    }
    let body = match read_reply(alloc, store, old, number) {
        Ok(body) => body,
        Err(fault) => return Err(fault),
    };
    match append(alloc, making, new, &TicketCmd::Store { number, body }) {
        Ok(()) => Ok(()),
        Err(fault) => Err(fault),
    }
}

/// Copies the commands of an open ticket.
fn copy_ticket<D: Disk, E: Disk>(
    alloc: Global,
    store: &mut Store,
    old: &mut D,
    making: &mut Making,
    new: &mut E,
    id: TicketId,
    service: Name,
    stored: bool,
) -> Result<(), CompactFault>
    requires listed { IsListed id service stored store.old.index }
    requires held { (store.old.spent ≡ false) × IsHeld D.Disk store.old old.old }
    requires going { IsGoing E.Disk making.old new.old }
    ensures copied { OnOk result (Copies D.Disk E.Disk (number_of id) store.old old.old making.old new.old making.new new.new) }
    ensures same { OnOk result (store.new ≡ store.old) }
    ensures held { OnOk result (IsHeld D.Disk store.new old.new) }
    ensures keeps { OnOk result (Keeps D.Disk store.old old.old store.new old.new) }
    ensures reads { Reads D.Disk old.old old.new }
    ensures going { OnOk result (IsGoing E.Disk making.new new.new) }
    ensures writes { Writes E.Disk making.old new.old making.new new.new }
    ensures cause { IfErr result (HasCause (D.faults old.old) (D.faults old.new) (E.faults new.old) (E.faults new.new)) }
    ensures kind { IfErr result IsOfCopying }
    ensures whole { IfErr result (λ fault. IsDamage fault → IsTelling D.Disk old.old → ⊥) }
{
    let number = id.number();
    let body = match read_body(alloc, store, old, number) {
        Ok(body) => body,
        Err(fault) => return Err(fault),
    };
    let cmd = TicketCmd::Accept { id, service, body };
    match append(alloc, making, new, &cmd) {
        Ok(()) => {}
        Err(fault) => return Err(fault),
    }
    match copy_reply(alloc, store, old, making, new, number, stored) {
        Ok(()) => Ok(()),
        Err(fault) => Err(fault),
    }
}

/// An open ticket: its id, its service, and whether its reply is stored.
#[derive(Drop)]
struct Listed {
    id: TicketId,
    service: Name,
    stored: bool,
}

/// The open ticket with the least number above this one.
#[tactic(auto, using(crate::proofs::Walking::is_next))]
fn next_ticket(store: &Store, after: u64) -> Option<Listed>
    requires { AreNumbered store.now.index }
    ensures listed { IfSome result (λ next. IsNext after store.now.index next.id next.service next.stored) }
    ensures none { IfNone result (open_above after store.now.index ≡ None) }
{
    match store.listed(after) {
        Some((id, service, stored)) => Some(Listed {
            id,
            service: service.copy(),
            stored,
        }),
        None => None,
    }
}

/// Copies the commands of the open ticket with the least number above this one, and gives its number; None where there is none.
fn copy_next<D: Disk, E: Disk>(
    alloc: Global,
    store: &mut Store,
    old: &mut D,
    making: &mut Making,
    new: &mut E,
    after: u64,
) -> Result<Option<u64>, CompactFault>
    requires numbered { AreNumbered store.old.index }
    requires held { (store.old.spent ≡ false) × IsHeld D.Disk store.old old.old }
    requires going { IsGoing E.Disk making.old new.old }
    ensures number { IfOk result (λ next. next ≡ option_map number_in (open_above after store.old.index)) }
    ensures copied { IfOk result (λ next. IfSome next (λ number. Copies D.Disk E.Disk number store.old old.old making.old new.old making.new new.new)) }
    ensures same { OnOk result (store.new ≡ store.old) }
    ensures held { OnOk result (IsHeld D.Disk store.new old.new) }
    ensures keeps { OnOk result (Keeps D.Disk store.old old.old store.new old.new) }
    ensures reads { Reads D.Disk old.old old.new }
    ensures going { OnOk result (IsGoing E.Disk making.new new.new) }
    ensures none { IfOk result (λ next. IfNone next ((making.new ≡ making.old) × (new.new ≡ new.old))) }
    ensures writes { Writes E.Disk making.old new.old making.new new.new }
    ensures cause { IfErr result (HasCause (D.faults old.old) (D.faults old.new) (E.faults new.old) (E.faults new.new)) }
    ensures kind { IfErr result IsOfCopying }
    ensures whole { IfErr result (λ fault. IsDamage fault → IsTelling D.Disk old.old → ⊥) }
{
    let Some(next) = next_ticket(store, after) else {
        return Ok(None);
    };
    let number = next.id.number();
    match copy_ticket(
        alloc,
        store,
        old,
        making,
        new,
        next.id,
        next.service,
        next.stored,
    ) {
        Ok(()) => Ok(Some(number)),
        Err(fault) => Err(fault),
    }
}

/// Copies the commands of all open tickets, and counts them.
pub fn copy_all<D: Disk, E: Disk>(
    alloc: Global,
    store: &mut Store,
    old: &mut D,
    making: &mut Making,
    new: &mut E,
) -> Result<u64, CompactFault>
    requires numbered { AreNumbered store.old.index }
    requires small { store.old.index.next < 2 ^ 62 }
    requires held { (store.old.spent ≡ false) × IsHeld D.Disk store.old old.old }
    requires going { IsGoing E.Disk making.old new.old }
    ensures copied { IfOk result (CopiesAll D.Disk E.Disk store.old old.old making.old new.old making.new new.new) }
    ensures same { OnOk result (store.new ≡ store.old) }
    ensures reads { Reads D.Disk old.old old.new }
    ensures keeps { OnOk result (Keeps D.Disk store.old old.old store.new old.new) }
    ensures going { OnOk result (IsGoing E.Disk making.new new.new) }
    ensures writes { Writes E.Disk making.old new.old making.new new.new }
    ensures cause { IfErr result (HasCause (D.faults old.old) (D.faults old.new) (E.faults new.old) (E.faults new.new)) }
    ensures kind { IfErr result IsOfCopying }
    ensures whole { IfErr result (λ fault. IsDamage fault → IsTelling D.Disk old.old → ⊥) }
{
    let mut after = 0;
    let mut count: u64 = 0;
    loop {
        match copy_next(alloc, store, old, making, new, after) {
            Ok(Some(number)) => {
                after = number;
                count += 1;
            }
            Ok(None) => return Ok(count),
            Err(fault) => return Err(fault),
        }
    }
}
