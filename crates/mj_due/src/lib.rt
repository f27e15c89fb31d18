//! Until when each worker's lease runs, in an order by connection and one by deadline, so that no call walks
//! over leases that aren't due.
#![tactic(auto)]

mod leases;
mod numbers;
mod orders;

pub use leases::Leases;
