use super::Lengths;
use mj_base::{Name, Version};

/// One connection, from its opening to its end.
#[derive(Drop)]
pub struct Connection {
    pub lane: u32,
    /// 1, 2, 3 and so on, and never used again.
    pub number: u64,
    pub role: Role,
    /// The bytes of each piece that is on its way to the peer, oldest first.
    pub outstanding: Lengths,
}

/// What a connection's messages have made of it.
#[derive(Drop)]
pub enum Role {
    /// It has sent no message.
    Fresh,
    /// It has asked for a service.
    Client,
    /// It serves.
    Worker(Registration),
    /// It is passed over until it closes.
    Gone,
}

/// What a worker's READY says (ZeroMQ RFC 7, READY), and when it was last heard and spoken to.
#[derive(Drop)]
pub struct Registration {
    pub version: Version,
    pub lead: bool,
    pub service: Name,
    /// The moment, in milliseconds, of its last lawful word or of the request that it was given.
    pub mark: u64,
    /// The moment, in milliseconds, at which it was last sent something.
    pub spoken: u64,
}

/// How a worker is spoken to: its version, and whether the empty frame stands first.
#[derive(Clone, Copy)]
pub struct Voice {
    pub version: Version,
    pub lead: bool,
}
