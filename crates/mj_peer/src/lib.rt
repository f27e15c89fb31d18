//! The two ends of a Majordomo conversation beside the broker: a client that asks, and a worker that answers. They
//! are told what their link gave, and say what is to be done; they wait for nobody and reach nothing outside.
#![tactic(auto)]

mod act;
mod client_end;
mod duty;
mod post;
mod session;
mod talk;
mod text;
mod verdict;
mod worker_end;

pub use act::{Act, Acts};
pub use client_end::ClientEnd;
pub use duty::Duty;
pub use post::{Handed, Post};
pub use worker_end::WorkerEnd;
