//! The tickets in memory, in a list by number.
ghost use Rattle.std.specs.Prelude.{◌≡◌, ◌<◌, ◌≤◌, ◌+◌, None, [], ◌∷◌, ◌++◌, length, vec_len, drop, find, filter, nat_lt, ◌&&◌, slice_get, is_some, true, IfSome, IfNone, OnOk, OnErr, MatchOption, option_copied, option_and_then};
ghost use Rattle.mj_tickets.specs.Entries;
ghost use Rattle.mj_tickets.specs.Entries.{IsAbove, IsOpenAt, IsPendingAt, IsSplit, Rise, find_pending, shown, spare_of, stands_pending, tickets_in, with_standing};
ghost use Rattle.std.specs.Str.{bytes_eq};
ghost use Rattle.mj_tickets.specs.Fold;
ghost use Rattle.mj_tickets.specs.Fold.{numbered};
ghost use Rattle.mj_tickets.specs.Index.{state_in};

use super::{Place, TicketState};
use mj_base::{Name, NoMemory};
use mj_ids::TicketId;

/// A ticket. A closed one stays in the list until enough of them are there to be worth taking out.
#[derive(Drop)]
pub(crate) struct Entry {
    pub(crate) id: TicketId,
    pub(crate) service: Name,
    pub(crate) body: Place,
    pub(crate) standing: Standing,
}

#[derive(Clone, Copy)]
pub(crate) enum Standing {
    Pending,
    Stored(Place),
    Closed,
}

/// The number of its ticket.
pub(crate) fn number_of(entry: &Entry) -> u64
    ensures { result ≡ Entries.number_at entry.now }
{
    entry.id.number()
}

pub(crate) fn is_open(entry: &Entry) -> bool
    ensures { result ≡ is_some (shown entry.now) }
{
    match entry.standing {
        Standing::Pending => true,
        Standing::Stored(_) => true,
        Standing::Closed => false,
    }
}

pub(crate) fn is_pending(entry: &Entry) -> bool
    ensures { result ≡ stands_pending entry.now.standing }
{
    match entry.standing {
        Standing::Pending => true,
        Standing::Stored(_) => false,
        Standing::Closed => false,
    }
}

/// The first place whose number isn't below this one, or the length.
fn first_from(entries: &[Entry], number: u64) -> usize
    requires { Rise entries.now }
    ensures { IsSplit number entries.now result }
{
    entries.partition_point(|entry| number_of(entry) < number)
}

/// The place of the open ticket of this number.
pub(crate) fn open_place(entries: &[Entry], number: u64) -> Option<usize>
    requires { Rise entries.now }
    ensures found { IfSome result (λ at. IsOpenAt number entries.now at) }
    ensures none { IfNone result (find (numbered number) (tickets_in entries.now) ≡ None) }
{
    let at = first_from(entries, number);
    let entry = entry_at(entries, at)?;
    if number_of(entry) == number && is_open(entry) {
        Some(at)
    } else {
        None
    }
}

/// The entries whose numbers are above this one.
fn entries_above(entries: &[Entry], after: u64) -> &[Entry]
    requires { Rise entries.now }
    ensures { IsAbove after entries.now result.now }
{
    let at = entries.partition_point(|entry| number_of(entry) <= after);
    let (_, above) = entries.split_at(at);
    above
}

/// The open ticket of this number.
pub(crate) fn open_entry(entries: &[Entry], number: u64) -> Option<&Entry>
    requires { Rise entries.now }
    ensures exact { option_and_then (λ e. shown e.now) result ≡ find (numbered number) (tickets_in entries.now) }
    ensures open { IfSome result (λ e. is_some (shown e.now) ≡ true) }
{
    let at = open_place(entries, number)?;
    entry_at(entries, at)
}

/// The place of the pending ticket of this number.
pub(crate) fn pending_place(entries: &[Entry], number: u64) -> Option<usize>
    requires { Rise entries.now }
    ensures found { IfSome result (λ at. IsPendingAt number entries.now at) }
    ensures none { IfNone result (find_pending number (tickets_in entries.now) ≡ None) }
{
    let at = open_place(entries, number)?;
    let entry = entry_at(entries, at)?;
    if is_pending(entry) { Some(at) } else { None }
}

/// The open ticket with the least number above this one.
pub(crate) fn open_above(entries: &[Entry], after: u64) -> Option<&Entry>
    requires { Rise entries.now }
    ensures exact { option_and_then (λ e. shown e.now) result ≡ find (λ t. nat_lt after t.number) (tickets_in entries.now) }
    ensures open { IfSome result (λ e. is_some (shown e.now) ≡ true) }
{
    first_open(entries_above(entries, after))
}

/// The pending ticket with the least number above this one.
pub(crate) fn pending_above(entries: &[Entry], after: u64) -> Option<&Entry>
    requires { Rise entries.now }
    ensures exact { option_and_then (λ e. shown e.now) result ≡ find (λ t. nat_lt after t.number && Fold.is_pending t) (tickets_in entries.now) }
    ensures pending { IfSome result (λ e. stands_pending e.now.standing ≡ true) }
{
    first_pending(entries_above(entries, after))
}

/// The first entry that is of an open ticket.
fn first_open(entries: &[Entry]) -> Option<&Entry>
    ensures { option_copied result ≡ find (λ e. is_some (shown e)) entries.now }
{
    entries.iter().find(|entry| is_open(entry))
}

/// The first entry that is of a pending ticket.
fn first_pending(entries: &[Entry]) -> Option<&Entry>
    ensures { option_copied result ≡ find (λ e. stands_pending e.standing) entries.now }
{
    entries.iter().find(|entry| is_pending(entry))
}

/// Appends an entry. Without memory nothing changes, and none is wanted where there is room.
pub(crate) fn push_entry(entries: &mut Vec<Entry>, entry: Entry) -> Result<(), NoMemory>
    ensures items { OnOk result (entries.new.items ≡ entries.old.items ++ entry ∷ []) }
    ensures spare { OnOk result (spare_of entries.old ≤ spare_of entries.new + 1) }
    ensures full { OnErr result (spare_of entries.old ≡ 0) }
    ensures same { OnErr result ((entries.new.items ≡ entries.old.items) × (spare_of entries.new ≡ spare_of entries.old)) }
{
    entries.reserve(1)?;
    entries.push(entry).unwrap();
    Ok(())
}

/// Puts the ticket at this place into another standing.
pub(crate) fn put_standing(entries: &mut Vec<Entry>, at: usize, standing: Standing)
    requires { at < vec_len entries.old }
    ensures items { entries.new.items ≡ with_standing at standing entries.old.items }
    ensures spare { spare_of entries.new ≡ spare_of entries.old }
{
    entries[at].standing = standing;
}

/// Takes the closed tickets out.
pub(crate) fn take_out_closed(entries: &mut Vec<Entry>)
    ensures items { entries.new.items ≡ filter (λ e. is_some (shown e)) entries.old.items }
    ensures spare { spare_of entries.old ≤ spare_of entries.new }
{
    entries.retain(|entry| is_open(entry));
}

/// The open ticket of this whole id.
pub(crate) fn known_entry<'a>(entries: &'a [Entry], id: &TicketId) -> Option<&'a Entry>
    requires { Rise entries.now }
    ensures { option_and_then (λ e. shown e.now) result ≡ find (λ t. bytes_eq t.id id.now) (tickets_in entries.now) }
{
    let entry = open_entry(entries, id.number())?;
    if entry.id == *id { Some(entry) } else { None }
}

/// What is told of a ticket that was looked for.
pub(crate) fn state_of(found: Option<&Entry>) -> TicketState
    ensures { result ≡ state_in (option_and_then (λ e. shown e.now) found.entry) }
{
    match found {
        None => TicketState::Unknown,
        Some(entry) => match entry.standing {
            Standing::Pending => TicketState::Pending,
            Standing::Stored(_) => TicketState::Stored,
            Standing::Closed => TicketState::Unknown,
        },
    }
}

fn entry_at(entries: &[Entry], at: usize) -> Option<&Entry>
    ensures { MatchOption result (drop at entries.now ≡ []) (λ e. (at < length entries.now) × (drop at entries.now ≡ e.now ∷ drop (at + 1) entries.now)) }
{
    read_at(entries, at)
}

fn read_at(entries: &[Entry], at: usize) -> Option<&Entry>
    ensures { option_copied result ≡ slice_get entries.now at }
{
    entries.get(at)
}
