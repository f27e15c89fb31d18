//! Tests of the client's and the worker's ends, which stand apart so that their crate is proved once.
#![tactic(auto)]

#[cfg(test)]
mod client;
#[cfg(test)]
mod texts;
#[cfg(test)]
mod worker;
