//! Tests of the broker's call and of its words, which stand apart so that its crate is proved once.
#![tactic(auto)]

#[cfg(test)]
mod runs;
#[cfg(test)]
mod words;
