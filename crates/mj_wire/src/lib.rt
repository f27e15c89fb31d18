//! A peer's stream of bytes, cut into pieces in any way, as items (ZeroMQ RFC 23): the greeting, READY and
//! messages, up to the first fault.
#![tactic(auto)]

mod item;
mod laws;
mod next;
mod place;
mod read;
mod wire;

pub use item::WireItem;
pub use laws::{items_stay, longest_cut_is_read, no_cut_is_read};
pub use wire::Wire;
