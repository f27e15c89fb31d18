//! The greeting with which each side of a connection begins (ZeroMQ RFC 23, greeting).
#![tactic(auto)]

mod greeting;

pub use greeting::{Greeting, GreetingFault, broker_greeting, greeting_fault, read_greeting};
