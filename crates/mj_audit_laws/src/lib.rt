//! What a verdict says of a whole transcript.
#![tactic(auto)]

mod laws;

pub use laws::{held_answers_are_given, held_is_kept};
