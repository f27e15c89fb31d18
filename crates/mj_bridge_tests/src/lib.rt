//! Tests of the bridge, which stand apart so that its crate is proved once.
#![tactic(auto)]

#[cfg(test)]
mod rows;
#[cfg(test)]
mod texts;
