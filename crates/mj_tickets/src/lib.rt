//! Ticket commands, their text in the ticket file, and the tickets that a list of them leaves open (ZeroMQ RFC 9).
#![tactic(auto)]

mod command;
mod entries;
mod fault;
mod laws;
mod place;
mod reading;
mod state;
mod tickets;
mod writing;

pub use command::{TicketCmd, text_len};
pub use fault::ApplyFault;
pub use laws::{
    accepts_follow_the_base, open_tickets_are_numbered, payloads_are_of_one_command,
    places_are_of_bodies, the_worked_commands,
};
pub use place::Place;
pub use reading::{read_body, read_cmd};
pub use state::TicketState;
pub use tickets::Tickets;
pub use writing::write_cmd;
