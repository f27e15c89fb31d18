//! Tests of compacted files, which stand apart so that their crate is proved once.
#![tactic(auto)]

#[cfg(test)]
mod tests;
