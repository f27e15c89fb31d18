//! Tests of the journal, which stand apart so that it is proved once.
#![tactic(auto)]

#[cfg(test)]
mod tests;
