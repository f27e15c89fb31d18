//! Links over TCP: to a port, and to whoever connects to one.
#![tactic(auto)]

mod listen_link;
mod place;
mod socket_link;

pub use listen_link::ListenLink;
pub use socket_link::SocketLink;
