//! The command `compact`: its words, the call over two files, and the status that it ends with.
#![tactic(auto)]

mod finish;
mod halt;
mod line;
mod status;
mod top_call;
mod words;

pub use top_call::compact;
