//! Judges what passed between a Majordomo broker and its peers, line by line.
#![tactic(auto)]

mod audit;
mod hearing;
mod lane;
mod settling;
mod slots;
mod steps;
mod telling;

pub use audit::Audit;
pub use lane::Lane;
