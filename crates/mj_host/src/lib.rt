//! The broker over sockets, as the words of a command line ask for it: what its run does, and what it prints.
#![tactic(auto)]

mod finishing;
mod status;
mod top_call;
mod words;

pub use top_call::broker;
pub use words::broker_words;
