//! Tests of the host, which stand apart so that its crate is proved once.
#![tactic(auto)]

#[cfg(test)]
mod tests;
