use mj_base::Octets;

/// A line of a transcript. Lanes are 0 to 63.
#[derive(Drop)]
pub enum Line {
    /// A connection is there, and the broker knows it by this address of 1 to 255 bytes.
    Open(u32, Octets),
    /// The broker received these bytes.
    In(u32, Octets),
    /// The broker sent these bytes.
    Out(u32, Octets),
    /// The connection is closed.
    Close(u32),
    /// The broker takes this worker's lease as ended.
    Lapse(u32),
    /// Empty, or a comment.
    Silent,
    /// Of no form above.
    Unlawful,
}
