//! The command `bridge`: a service that another broker has, served at a near one.
#![tactic(auto)]

mod ending;
mod finish;
mod leaving;
mod performing;
mod run;
mod status;
mod top_call;
mod words;

pub use top_call::bridge;
