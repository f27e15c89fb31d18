/// Why a connection ended.
#[derive(Clone, Copy, Debug, PartialEq, Eq)]
pub enum Reason {
    /// The greeting's signature is wrong.
    BadSignature,
    /// The greeting's major version is below 3.
    BadVersion,
    /// The greeting's mechanism isn't NULL.
    BadMechanism,
    /// A frame begins with a flags byte that the standard doesn't have.
    BadFlags,
    /// A frame in READY's place is no READY.
    BadHandshake,
    /// READY names no socket type, or none that may talk to a broker.
    BadSocketType,
    /// A message has too many frames.
    TooMany,
    /// A command or a message has too many bytes.
    TooLong,
    /// The peer doesn't take what is sent to it.
    Slow,
    /// The queue of client requests is full.
    QueueFull,
}
