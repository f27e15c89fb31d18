//! What the program's words do: scripts of events, and what a run of the broker prints.
#![tactic(auto)]

mod act;
mod finish;
mod front;
mod halt;
mod line;
mod listing;
mod meaning;
mod next;
mod print;
mod progress;
mod read;
mod run;
mod script_ports;
mod status;
mod top_call;
mod words;

pub use top_call::tool;
