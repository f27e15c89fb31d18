//! Tests of whole runs, and ports that keep what they are given.
#![tactic(auto)]

mod recorder;
#[cfg(test)]
mod ticket_run;

pub use recorder::{Kept, Recorder};
