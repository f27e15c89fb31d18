//! Tests of `show` and `help`, which stand apart so that their crate is proved once.
#![tactic(auto)]

#[cfg(test)]
mod streams;
