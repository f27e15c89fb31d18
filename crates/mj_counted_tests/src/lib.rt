//! Tests of rows, orders and names, which stand apart so that the crate below is proved once.
#![tactic(auto)]

#[cfg(test)]
mod index;
#[cfg(test)]
mod order;
#[cfg(test)]
mod rows;
