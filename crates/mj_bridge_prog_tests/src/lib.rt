//! Tests of the command `bridge`, which stand apart so that its crate is proved once.
#![tactic(auto)]

#[cfg(test)]
mod failures;
#[cfg(test)]
mod runs;
#[cfg(test)]
mod scripts;
