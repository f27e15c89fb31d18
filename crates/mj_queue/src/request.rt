use mj_base::{Frames, Name, Version};

/// Who asks.
#[derive(Clone, Copy, Debug, PartialEq, Eq)]
pub enum Origin {
    /// A client, by its connection's number.
    Client(u64),
    /// A ticket, by its number (ZeroMQ RFC 9).
    Ticket(u64),
}

/// A request for a service. For a ticket `version` is One and `lead` true, and both mean nothing.
#[derive(Drop)]
pub struct Request {
    pub origin: Origin,
    pub service: Name,
    pub version: Version,
    /// Whether the client puts an empty frame in front.
    pub lead: bool,
    pub body: Frames,
}

/// Why a request wasn't queued. Either gives it back, and changes nothing.
#[derive(Drop)]
pub enum AskFault {
    /// Too many client requests are queued, or they weigh too much.
    QueueFull(Request),
    NoMemory(Request),
}
