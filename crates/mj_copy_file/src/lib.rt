//! The file of an end of a copy: a list of lawful ticket commands, which is opened, read by number, and takes one more.
#![tactic(auto)]

mod fault;
mod log;
mod reading;
mod spot;

pub use fault::LogFault;
pub use log::Log;
pub use spot::Spot;
