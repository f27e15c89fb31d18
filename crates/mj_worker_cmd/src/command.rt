ghost use Rattle.std.specs.Prelude.{◌↔◌, IsTrue};

use mj_base::{Frames, Name, Octets, Version};

/// What a worker tells the broker.
#[derive(Drop)]
pub struct WorkerCmd {
    pub version: Version,
    /// Whether the empty frame stands first, as it always does in 0.1.
    pub lead: bool,
    pub act: WorkerAct,
}

impl WorkerCmd {
    ghost use Rattle.mj_worker_cmd.specs.WorkerGrammar.{IsSpoken};

    /// Whether its version has such a command.
    pub fn is_writable(&self) -> bool
        ensures { IsTrue result ↔ IsSpoken self.now.version self.now.lead self.now.act }
    {
        match (self.version, &self.act) {
            (Version::One, WorkerAct::Reply { last, .. }) => self.lead && *last,
            (Version::One, _) => self.lead,
            (Version::Two, _) => true,
        }
    }
}

/// The commands of a worker (ZeroMQ RFC 7, Majordomo/Worker).
#[derive(Drop)]
pub enum WorkerAct {
    /// It serves this service from now on.
    Ready(Name),
    /// It answers the request that came with this address.
    Reply {
        /// Whether no further reply to the request follows, as always in 0.1.
        last: bool,
        address: Octets,
        body: Frames,
    },
    Heartbeat,
    Disconnect,
}

/// What the broker tells a worker.
#[derive(Drop)]
pub struct Order {
    pub version: Version,
    /// Whether the empty frame stands first, as it always does in 0.1.
    pub lead: bool,
    pub act: OrderAct,
}

impl Order {
    ghost use Rattle.mj_worker_cmd.specs.WorkerGrammar.{IsLed};

    /// Whether its version has such a command.
    pub fn is_writable(&self) -> bool
        ensures { IsTrue result ↔ IsLed self.now.version self.now.lead }
    {
        match self.version {
            Version::One => self.lead,
            Version::Two => true,
        }
    }
}

/// The commands of the broker (ZeroMQ RFC 7, Majordomo/Worker).
#[derive(Drop)]
pub enum OrderAct {
    /// A request; the reply goes to this address.
    Request { address: Octets, body: Frames },
    Heartbeat,
    Disconnect,
}
