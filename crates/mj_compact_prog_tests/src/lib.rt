//! Tests of the command `compact`, which stand apart so that its crate is proved once.
#![tactic(auto)]

#[cfg(test)]
mod failures;
#[cfg(test)]
mod refusals;
#[cfg(test)]
mod runs;
#[cfg(test)]
mod tests;
