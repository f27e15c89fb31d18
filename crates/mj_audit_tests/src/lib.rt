//! Tests of `audit`, which stand apart so that its crate is proved once.
#![tactic(auto)]

#[cfg(test)]
mod tests;
#[cfg(test)]
mod transcripts;
