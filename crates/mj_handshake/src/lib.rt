//! READY, the command with which each side of a connection names its socket type (ZeroMQ RFC 23, NULL).
#![tactic(auto)]

mod laws;
mod property;
mod ready;
mod socket_type;

pub use laws::{one_list, written_is_read};
pub use ready::{read_ready, write_ready};
pub use socket_type::SocketType;
