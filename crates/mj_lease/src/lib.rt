//! Until when each worker's lease runs (the ZeroMQ guide, chapter 4, heartbeating).
#![tactic(auto)]

mod entries;
mod leases;

pub use leases::Leases;
