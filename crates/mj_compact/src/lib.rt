//! Makes of a store's file a new one with its open tickets alone.
#![tactic(auto)]

mod copying;
mod fault;
mod files;

pub use fault::CompactFault;
pub use files::compact;
