/// Where the text of a body stands in the ticket file, its count of frames included.
#[derive(Clone, Copy, PartialEq, Eq)]
pub struct Place {
    /// The offset of its first byte.
    pub at: u64,
    /// Its length in bytes.
    pub len: u64,
}
