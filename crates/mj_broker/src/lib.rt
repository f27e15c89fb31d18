//! The broker as a machine: events come in, and what is to be sent goes out. It waits for nobody and reaches
//! nothing outside.
#![tactic(auto)]

mod broker;
mod fault;
mod happen;
mod message;
mod rows;
mod settle;
mod wires;

pub use broker::Broker;
pub use fault::EventFault;
