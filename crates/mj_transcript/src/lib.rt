//! What passed between a Majordomo broker and its peers, line by line, and what the laws say of it.
#![tactic(auto)]

mod line;
mod reading;
mod verdict;
mod worked;

pub use line::Line;
pub use reading::{LINE_BYTES, read_line};
pub use verdict::{Law, Verdict};
pub use worked::worked_transcripts;
