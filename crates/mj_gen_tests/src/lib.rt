//! Tests of the generated load, which stand apart so that its crate is proved once.
#![tactic(auto)]

#[cfg(test)]
mod loads;
