use mj_base::Frames;

/// What has to come next in the stream.
#[derive(Clone, Copy)]
pub enum Stage {
    Greeting,
    /// READY.
    Handshake,
    /// Messages and commands.
    Open,
    /// Nothing: there was a fault.
    Ended,
}

/// A place in the stream, between two frames.
#[derive(Drop)]
pub struct Place {
    pub stage: Stage,
    /// The bytes before it, at most 2^64 - 1.
    pub at: u64,
    /// The frames of the message that isn't whole yet.
    pub group: Frames,
}
