/// What a run did. Both counts stop at 2^64 - 1.
#[derive(Clone, Copy, Debug, PartialEq, Eq)]
pub struct Summary {
    /// Events that were taken before the end.
    pub events: u64,
    /// Pieces that were given to the ports.
    pub pieces: u64,
}
