ghost use Rattle.std.specs.Prelude.{◌≡◌, ◌↔◌, ◌<◌, ◌≤◌, ◌+◌, ◌^◌, None, Some, length, OnOk, OnErr, IsErr, IsErrOf, option_map, option_and_then};
ghost use Rattle.mj_ids.specs.Ids.{number_of as number_in};
ghost use Rattle.mj_tickets.specs.Payload.{payload_of};
ghost use Rattle.mj_tickets.specs.Fold;
ghost use Rattle.mj_tickets.specs.Fold.{accepts, applied, closes, known, start, stores, ticket_of};
ghost use Rattle.mj_tickets.specs.Index.{listed_as, pending_as, place_in, state_in};
ghost use Rattle.mj_tickets.specs.Laws.{AreNumbered};
ghost use Rattle.mj_tickets.specs.declared.place.Place.{Place as APlace};
ghost use Rattle.mj_tickets.specs.Fold.{Ticket};

use super::command::text_len;
use super::entries::{
    Entry, Standing, is_pending, known_entry, number_of, open_above, open_entry, open_place,
    pending_above, pending_place, push_entry, put_standing, state_of, take_out_closed,
};
use super::{ApplyFault, Place, TicketCmd, TicketState};
use mj_base::{Name, NoMemory};
use mj_ids::TicketId;
use std::alloc::Global;
use std::marker::Model;

/// The open tickets that a list of commands leaves: of each its id, its service, and where its bodies stand in the
/// ticket file. Tickets are found by search, and the closed ones are taken out when there are many.
#[derive(Drop)]
pub struct Tickets {
    entries: Vec<Entry>,
    highest: u64,
    next: u64,
    /// How many entries are of closed tickets.
    closed: usize,
}

impl Model for Tickets {
    ghost use Rattle.mj_tickets.specs.Index.{Kept};

    ghost Value = { Kept };

    ghost use Rattle.mj_tickets.specs.Entries.{AreKept, index_of, spare_of};

    ghost view = { λ t. record { index = index_of t.entries.items t.highest t.next; spare = spare_of t.entries } };

    ghost invariant = { λ t. AreKept t.entries.items t.highest t.next t.closed };
}

impl Tickets {
    /// No tickets. The first one gets this number, where it isn't kept from an earlier file.
    pub fn new(alloc: Global, base: u64) -> Tickets
        requires low { 1 ≤ base }
        requires high { base ≤ 2 ^ 61 }
        ensures { result.index ≡ start base }
    {
        Tickets {
            entries: Vec::new(alloc),
            highest: 0,
            next: base,
            closed: 0,
        }
    }

    /// Makes room for one lawful command. None is made where there is some.
    pub fn reserve(&mut self) -> Result<(), NoMemory>
        ensures room { OnOk result (1 ≤ self.new.spare) }
        ensures index { self.new.index ≡ self.old.index }
        ensures full { OnErr result (self.old.spare ≡ 0) }
        ensures err { OnErr result (self.new ≡ self.old) }
    {
        self.entries.reserve(1)?;
        Ok(())
    }

    /// Applies a command whose payload begins at this offset of the ticket file. Where there is room, a lawful command
    /// wants no memory.
    pub fn apply(&mut self, cmd: &TicketCmd, at: u64) -> Result<(), ApplyFault>
        requires { at + length (payload_of cmd.now) < 2 ^ 62 }
        ensures ok { OnOk result (applied cmd.now (place_in at cmd.now) self.old.index ≡ Some self.new.index) }
        ensures unlawful { IsErrOf result ApplyFault.Unlawful ↔ (applied cmd.now (place_in at cmd.now) self.old.index ≡ None) }
        ensures no_memory { IsErrOf result ApplyFault.NoMemory → self.old.spare ≡ 0 }
        ensures err { OnErr result (self.new ≡ self.old) }
        ensures spare { OnOk result (self.old.spare ≤ self.new.spare + 1) }
    {
        match cmd {
            TicketCmd::Accept { id, service, body } => {
                let head = 2 + id.octets().len() + service.as_slice().len();
                let place = Place {
                    at: at + head as u64,
                    len: text_len(body),
                };
                self.accept(id, service, place)
            }
            TicketCmd::Store { number, body } => {
                let place = Place {
                    at: at + 9,
                    len: text_len(body),
                };
                self.store(*number, place)
            }
            TicketCmd::Close { number } => self.close(*number),
        }
    }

    /// What is told of the ticket with this whole id.
    pub fn state(&self, id: &TicketId) -> TicketState
        ensures value { result ≡ state_in (known id.now self.now.index) }

        // It is then the open ticket of its number.
        ensures number { (t : Ticket APlace) → known id.now self.now.index ≡ Some t → ticket_of (number_in id.now) self.now.index ≡ Some t }
    {
        state_of(known_entry(&self.entries, id))
    }

    /// The pending ticket with the least number above this one, and its service. Those with a stored reply in between
    /// are passed over, so that going through all tickets takes one walk.
    pub fn pending(&self, after: u64) -> Option<(u64, &Name)>
        ensures { option_map (λ p. (p.0, p.1.now)) result ≡ option_map pending_as (Fold.pending_above after self.now.index) }
    {
        let entry = pending_above(&self.entries, after)?;
        Some((number_of(entry), &entry.service))
    }

    /// The open ticket with the least number above this one, its service, and whether its reply is stored.
    pub fn listed(&self, after: u64) -> Option<(TicketId, &Name, bool)>
        ensures { option_map (λ p. (p.0, p.1.now, p.2)) result ≡ option_map listed_as (Fold.open_above after self.now.index) }
    {
        let entry = open_above(&self.entries, after)?;
        Some((entry.id, &entry.service, !is_pending(entry)))
    }

    /// The number of the next ticket.
    pub fn next(&self) -> u64
        ensures value { result ≡ self.now.index.next }
        ensures small { result ≤ 2 ^ 62 }
        ensures numbered { AreNumbered self.now.index }
    {
        self.next
    }

    /// The number of open tickets.
    pub fn open(&self) -> u64
        ensures { result ≡ length self.now.index.tickets }
    {
        (self.entries.len() - self.closed) as u64
    }

    /// Where the body of this open ticket stands.
    pub fn body_place(&self, number: u64) -> Option<Place>
        ensures { result ≡ option_map (λ t. t.body) (ticket_of number self.now.index) }
    {
        let entry = open_entry(&self.entries, number)?;
        Some(entry.body)
    }

    /// Where the stored reply of this open ticket stands.
    pub fn reply_place(&self, number: u64) -> Option<Place>
        ensures { result ≡ option_and_then (λ t. t.reply) (ticket_of number self.now.index) }
    {
        let entry = open_entry(&self.entries, number)?;
        match entry.standing {
            Standing::Stored(place) => Some(place),
            _ => None,
        }
    }

    fn accept(&mut self, id: &TicketId, service: &Name, body: Place) -> Result<(), ApplyFault>
        ensures ok { OnOk result (accepts id.now service.now body self.old.index ≡ Some self.new.index) }
        ensures unlawful { IsErrOf result ApplyFault.Unlawful ↔ (accepts id.now service.now body self.old.index ≡ None) }
        ensures no_memory { IsErrOf result ApplyFault.NoMemory → self.old.spare ≡ 0 }
        ensures err { OnErr result (self.new ≡ self.old) }
        ensures spare { OnOk result (self.old.spare ≤ self.new.spare + 1) }
    {
        let number = id.number();
        if number <= self.highest || number > self.next {
            return Err(ApplyFault::Unlawful);
        }
        let entry = Entry {
            id: *id,
            service: service.copy(),
            body,
            standing: Standing::Pending,
        };
        let Ok(()) = push_entry(&mut self.entries, entry) else {
            return Err(ApplyFault::NoMemory);
        };
        self.highest = number;
        if number == self.next {
            self.next += 1;
        }
        Ok(())
    }

    fn store(&mut self, number: u64, reply: Place) -> Result<(), ApplyFault>
        ensures ok { OnOk result (stores number reply self.old.index ≡ Some self.new.index) }
        ensures unlawful { IsErr result ↔ (stores number reply self.old.index ≡ None) }
        ensures kind { IsErrOf result ApplyFault.NoMemory → ⊥ }
        ensures err { OnErr result (self.new ≡ self.old) }
        ensures spare { OnOk result (self.new.spare ≡ self.old.spare) }
    {
        let Some(at) = pending_place(&self.entries, number) else {
            return Err(ApplyFault::Unlawful);
        };
        put_standing(&mut self.entries, at, Standing::Stored(reply));
        Ok(())
    }

    fn close(&mut self, number: u64) -> Result<(), ApplyFault>
        ensures ok { OnOk result (closes number self.old.index ≡ Some self.new.index) }
        ensures unlawful { IsErr result ↔ (closes number self.old.index ≡ None) }
        ensures kind { IsErrOf result ApplyFault.NoMemory → ⊥ }
        ensures err { OnErr result (self.new ≡ self.old) }
        ensures spare { OnOk result (self.old.spare ≤ self.new.spare) }
    {
        let Some(at) = open_place(&self.entries, number) else {
            return Err(ApplyFault::Unlawful);
        };
        put_standing(&mut self.entries, at, Standing::Closed);
        self.closed += 1;
        self.tidy();
        Ok(())
    }

    /// Takes the closed tickets out where they are more than a fifth, so that a close costs a few moves on average.
    fn tidy(&mut self)
        ensures index { self.new.index ≡ self.old.index }
        ensures spare { self.old.spare ≤ self.new.spare }
    {
        if self.closed > self.entries.len() / 5 {
            take_out_closed(&mut self.entries);
            self.closed = 0;
        }
    }
}
