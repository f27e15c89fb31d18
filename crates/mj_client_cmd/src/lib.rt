//! What clients and the broker say to each other (Majordomo, ZeroMQ RFC 7, and a profile after ZeroMQ RFC 18).
#![tactic(auto)]

mod command;
mod laws;
mod parts;
mod reply;
mod request;
mod write;

pub use command::{ClientCmd, ClientReply};
pub use laws::{replies_are_one_to_one, requests_are_one_to_one};
pub use reply::{read_reply, write_reply};
pub use request::{read_client, write_client};
