//! What the submitter wants done, done to a link, a sink, and its file.
#![tactic(auto)]

mod laws;
mod performing;
mod stop;

pub use laws::the_notes_of_a_turn_are_lawful;
pub use performing::perform_all;
pub use stop::Stop;
