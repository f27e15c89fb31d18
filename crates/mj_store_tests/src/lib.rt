//! Tests of the store, which stand apart so that it is proved once.
#![tactic(auto)]

#[cfg(test)]
mod made;
#[cfg(test)]
mod silent;
#[cfg(test)]
mod tests;
