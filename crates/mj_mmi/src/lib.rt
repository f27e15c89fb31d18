//! What is asked of the broker itself: which services are there (ZeroMQ RFC 8), and what is done with tickets (ZeroMQ
//! RFC 9).
#![tactic(auto)]

mod mmi;
mod titanic;

pub use mmi::{answer, asked};
pub use titanic::{read_submit, read_ticket};

#[cfg(test)]
mod tests;
