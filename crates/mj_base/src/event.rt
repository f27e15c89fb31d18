use super::{Octets, Reason};

/// What happens to the broker. The first number is the lane, which stands for one peer at a time.
#[derive(Drop)]
pub enum Event {
    /// A peer has connected on the lane.
    Open(u32),
    /// The lane's peer sent these bytes: the next piece of its stream, 1 to 65,536 bytes.
    Bytes(u32, Octets),
    /// The oldest piece that is still on its way to the lane's peer was sent.
    Sent(u32),
    /// The lane's peer has gone.
    Close(u32),
    /// It is this many milliseconds since the start, at most 1,000,000,000,000,000.
    Tick(u64),
    /// Nothing comes after this.
    Stop,
}

/// What became of the broker's store at an act on its disk: an append, the reading of a body, or an opening again.
/// The first number is the act's in its event, from 0.
#[derive(Clone, Copy)]
pub enum Note {
    /// The act failed, and the store is shut.
    Shut(u32),
    /// The act opened the store again; whether the command was found that an earlier failed act left in doubt.
    Again(u32, bool),
}

/// What the broker does. The first number is the lane.
#[derive(Drop)]
pub enum Out {
    /// Sends these bytes to the lane's peer.
    Piece(u32, Octets),
    /// Ends the lane's connection, with the reason and the place in bytes, or the number, that goes with it.
    End(u32, Reason, u64),
    /// Tells of its store, to no lane.
    Note(Note),
}
