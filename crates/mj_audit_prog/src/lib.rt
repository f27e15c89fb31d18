//! A transcript as a text: its lines, its verdict, and the command that prints it.
#![tactic(auto)]

mod auditing;
mod pieces;
mod reader;

pub use auditing::audit;
pub use reader::Reader;
