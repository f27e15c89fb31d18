//! Tests of the machine and of its laws, which stand apart so that both are proved once.
#![tactic(auto)]

#[cfg(test)]
mod tests;
