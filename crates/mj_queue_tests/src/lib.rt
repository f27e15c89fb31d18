//! Tests of who waits for what, and of leases, which stand apart so that the crates are proved once.
#![tactic(auto)]

#[cfg(test)]
mod hall;
#[cfg(test)]
mod leases;
