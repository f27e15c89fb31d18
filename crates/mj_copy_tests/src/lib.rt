//! Tests of the commands `ship` and `follow`, which stand apart so that their crates are proved once.
#![tactic(auto)]

#[cfg(test)]
mod breaks;
#[cfg(test)]
mod rows;
#[cfg(test)]
mod tests;
