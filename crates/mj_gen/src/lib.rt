//! A load that is made by rule, run through the broker, and what the broker did in numbers.
#![tactic(auto)]

mod counts;
mod events;
mod finishing;
mod laws;
mod load;
mod ports;
mod status;
mod texts;
mod top_call;

pub use laws::the_generated_load;
pub use ports::GenPorts;
pub use status::{Status, code};
pub use top_call::generate;
