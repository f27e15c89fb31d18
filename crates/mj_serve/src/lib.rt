//! Whole runs of the broker: events come from ports, and what is to be done to the lanes goes back to them, over a disk
//! that keeps the tickets.
#![tactic(auto)]

mod fault;
mod ports;
mod serving;
mod summary;
mod turn;

pub use fault::ServeFault;
pub use ports::Ports;
pub use serving::serve;
pub use summary::Summary;
