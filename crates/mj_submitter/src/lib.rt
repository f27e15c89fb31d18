//! The submitter: what is to be done for each line of the input and each event of the link.
#![tactic(auto)]

mod answer;
mod effect;
mod question;
mod submitter;
mod working;

pub use effect::{Effect, Effects, Ending};
pub use submitter::Submitter;
