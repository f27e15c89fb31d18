//! How each message of Majordomo begins: an empty frame and the word of its version (ZeroMQ RFC 7, and a profile after
//! ZeroMQ RFC 18).
#![tactic(auto)]

mod laws;
mod opening;
mod party;

pub use laws::openings_are_read;
pub use opening::{Beginning, is_same, push_opening, read_opening};
pub use party::Party;
