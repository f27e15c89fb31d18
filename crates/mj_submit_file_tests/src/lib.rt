//! Tests of the submitter's file, which stand apart so that it is proved once.
#![tactic(auto)]

#[cfg(test)]
mod tests;
