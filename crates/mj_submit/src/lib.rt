//! A client that submits each line of its input to a service as a ticket, fetches and prints the reply, and closes the
//! ticket: what it does, as definitions, and the file that keeps how far it came.
#![tactic(auto)]

mod laws;
mod note;
mod progress;

pub use laws::{the_worked_notes, the_worked_submissions};
pub use note::Note;
pub use progress::{Progress, Stage};
