//! A bridge between two brokers: a worker of the near one that is a client of the far one. It is told what its two links
//! gave, and says what is to be done; it waits for nobody and reaches nothing outside.
#![tactic(auto)]

mod act;
mod bridge;
mod deck;
mod laws;

pub use act::{BridgeAct, BridgeActs};
pub use bridge::Bridge;
pub use laws::{
    a_bridge_answers_each_request_on_its_link, a_bridge_asks_far_where_nothing_is_open, worked_runs,
};
