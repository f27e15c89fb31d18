//! Ticket ids: UUIDs of version 8 (RFC 9562, section 5.8) that hold the ticket's number behind words which the seed
//! of the run gives.
#![tactic(auto)]

mod laws;
mod ticket_id;

pub use laws::{ids_of_tickets_are_told_apart, the_worked_ids};
pub use ticket_id::TicketId;

#[cfg(test)]
mod tests;
