//! Rows, orders and names in which each look is counted, so that a bound on steps can be proved of what is
//! kept in them.
#![tactic(auto)]

mod index;
mod order;
mod rows;
mod steps;

pub use index::Index;
pub use order::{Order, key_for};
pub use rows::Rows;
pub use steps::Steps;
