//! What keeps tickets (ZeroMQ RFC 9): acts on the disk, as the broker's events make them.
#![tactic(auto)]

mod accepting;
mod acts;
mod fault;
mod parts;
mod reopening;
mod replies;
mod services;
mod settling;

pub use accepting::Accepted;
pub use acts::Keeping;
pub use fault::ActFault;
pub use parts::Parts;
