//! Tests of Majordomo's messages, which stand apart so that the crates are proved once.
#![tactic(auto)]

#[cfg(test)]
mod client_messages;
#[cfg(test)]
mod text;
#[cfg(test)]
mod worker_messages;
