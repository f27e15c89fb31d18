//! What a Majordomo broker and its peers said to each other, event by event: the laws on it, and tables that judge it.
#![tactic(auto)]

mod credit;
mod hand;
mod key;
mod peer;
mod peers;
mod same;
mod sending;
mod tables;
mod waiting;

pub use hand::Hand;
pub use peer::Peer;
pub use tables::Tables;
