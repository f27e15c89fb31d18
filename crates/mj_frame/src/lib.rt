//! Frames as they stand on the wire (ZeroMQ RFC 23, framing).
#![tactic(auto)]

mod head;
mod laws;
mod write;

pub use head::{Head, HeadAnswer, read_head};
pub use laws::{every_head_is_read, frames_end_once, written_is_read};
pub use write::{write_frame, write_message};
