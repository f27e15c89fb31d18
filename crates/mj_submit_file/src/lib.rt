//! The submitter's file: notes as payloads of a journal, opened as how far they come, and one more appended.
#![tactic(auto)]

mod advancing;
mod fault;
mod file;
mod opening;
mod reading;
mod writing;

pub use advancing::{nothing_yet, with_note};
pub use fault::FileFault;
pub use file::SubmitFile;
pub use reading::read_note;
pub use writing::note_payload;
