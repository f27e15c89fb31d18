//! What keeps tickets, and where it stands: no store, an open file, or one that is shut since a call of its disk failed.
#![tactic(auto)]

mod keeper;

pub use keeper::{Keeper, Shelf};
