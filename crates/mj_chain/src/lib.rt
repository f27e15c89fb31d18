//! Rows that hang together in three chains, so that a row is put in and taken out without a walk.
#![tactic(auto)]

mod desk;
mod node;
mod rows;

pub use desk::{Desk, Line, join, leave};
pub use node::{Chain, Ends, Link, Node};
pub use rows::{put_node, take_node};
