//! Tickets that last: a list of ticket commands in a file, and in memory the open tickets that it leaves, whose bodies stay
//! in the file.
#![tactic(auto)]

mod bodies;
mod fault;
mod laws;
mod opening;
mod store;

pub use fault::{AcceptFault, BodyFault};
pub use laws::images_open_again;
pub use mj_journal::{AppendFault, OpenFault};
pub use store::{Store, can_be_kept};
