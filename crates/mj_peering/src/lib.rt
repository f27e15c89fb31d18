//! What the two ends say, done over a link: the run of a client, from its input to
//! the lines that it prints, and the run of a worker.
#![tactic(auto)]

mod client;
mod feed;
mod leaving;
mod performing;
mod reading;
mod requesting;
mod stop;
mod worker;

pub use client::run_client;
pub use feed::Feed;
pub use leaving::Leaving;
pub use reading::read_event;
pub use stop::Stop;
pub use worker::run_worker;
