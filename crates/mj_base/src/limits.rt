ghost use Rattle.std.specs.Prelude.{◌≡◌};

/// How much a peer may ask of the broker.
#[derive(Clone, Copy, Debug, PartialEq, Eq)]
pub struct Limits {
    /// Frames of one received message.
    pub frames: u32,
    /// Bytes of all bodies of one received message.
    pub message: u64,
    /// Bytes of a command frame's body.
    pub command: u64,
    /// Lanes.
    pub lanes: u32,
    /// Queued client requests.
    pub queued: u64,
    /// Weight of the queued client requests: their bytes, and 32 for each frame.
    pub queued_weight: u64,
    /// Open tickets.
    pub tickets: u64,
    /// Bytes of the file that an accepted ticket may reach.
    pub file: u64,
    /// Pieces on their way to one connection.
    pub out_pieces: u64,
    /// Bytes on their way to one connection.
    pub out_octets: u64,
    /// Milliseconds between heartbeats (the guide, chapter 4).
    pub interval: u64,
    /// Milliseconds without a word after which a waiting worker's lease ends.
    pub lease: u64,
    /// Milliseconds without a word after which the lease of a worker with a request ends.
    pub busy_lease: u64,
}

impl Limits {
    ghost use Rattle.mj_base.specs.LawfulLimits;
    ghost use Rattle.mj_base.specs.StandardLimits.{standard_limits, peer_limits};

    /// What the broker allows a peer.
    pub fn standard() -> Limits
        ensures { result ≡ standard_limits }
    {
        Limits {
            frames: 256,
            message: 1_048_576,
            command: 8_192,
            lanes: 64,
            queued: 65_536,
            queued_weight: 268_435_456,
            tickets: 65_536,
            file: 4_294_967_296,
            out_pieces: 4_096,
            out_octets: 8_388_608,
            interval: 2_500,
            lease: 7_500,
            busy_lease: 60_000,
        }
    }

    /// Whether no limit is above what the broker allows a peer or a peer the broker.
    pub fn are_lawful(&self) -> bool
        ensures { result ≡ LawfulLimits.are_lawful self.now }
    {
        let most = Limits::peer();
        self.frames <= most.frames
            && self.message <= most.message
            && self.command <= most.command
            && self.lanes <= most.lanes
            && self.queued <= most.queued
            && self.queued_weight <= most.queued_weight
            && self.tickets <= most.tickets
            && self.file <= most.file
            && self.out_pieces <= most.out_pieces
            && self.out_octets <= most.out_octets
            && self.interval <= most.interval
            && self.lease <= most.lease
            && self.busy_lease <= most.busy_lease
    }

    /// What a peer allows the broker, which may add two frames and 246 bytes to a body that it passes on;
    /// rounded up.
    pub fn peer() -> Limits
        ensures { result ≡ peer_limits }
    {
        Limits {
            frames: 260,
            message: 1_049_600,
            ..Limits::standard()
        }
    }
}
