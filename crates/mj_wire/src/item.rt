use mj_base::{Frames, Reason};
use mj_handshake::SocketType;

/// What a stream says, in its order.
#[derive(Drop)]
pub enum WireItem {
    /// The greeting is whole and accepted.
    Accepted,
    /// READY came, from a socket of this type.
    Ready(SocketType),
    /// A message is whole.
    Message(Frames),
    /// The stream broke the rules at this byte, from 0. Nothing comes after it.
    Ended(Reason, u64),
}
