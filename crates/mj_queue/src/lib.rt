//! Which workers wait for which services, and which requests wait for a worker (the ZeroMQ guide, chapter 4).
#![tactic(auto)]

mod hall;
mod laws;
mod offer;
mod places;
mod request;
mod weight;
mod worker;

pub use hall::Hall;
pub use laws::a_pair_is_the_first_on_both_sides;
pub use offer::Offer;
pub use request::{AskFault, Origin, Request};
pub use worker::Waiter;
