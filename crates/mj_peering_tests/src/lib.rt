//! Tests of the run of a client over a link, which stand apart so that its crate is proved once.
#![tactic(auto)]

#[cfg(test)]
mod client;
