//! What workers and the broker say to each other (Majordomo, ZeroMQ RFC 7, and a profile after ZeroMQ RFC 18).
#![tactic(auto)]

mod command;
mod envelope;
mod kind;
mod laws;
mod order_message;
mod worker_message;

pub use command::{Order, OrderAct, WorkerAct, WorkerCmd};
pub use laws::{orders_are_one_to_one, worker_commands_are_one_to_one};
pub use order_message::{read_order, write_order};
pub use worker_message::{read_worker, write_worker};
