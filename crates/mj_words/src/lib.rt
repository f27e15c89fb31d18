//! What several commands share: numbers and options among the words of a command line, and printed lines.
#![tactic(auto)]

mod complaining;
mod lines;
mod number;
mod options;

pub use complaining::complain;
pub use lines::body_line;
pub use number::read_number;
pub use options::{are_options, read_option};
