//! Tests of the commands `client` and `worker`, which stand apart so that their crate is proved once.
#![tactic(auto)]

#[cfg(test)]
mod failures;
#[cfg(test)]
mod runs;
#[cfg(test)]
mod tests;
