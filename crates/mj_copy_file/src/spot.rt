/// Where a payload stands in its file.
#[derive(Clone, Copy, Debug, PartialEq, Eq)]
pub struct Spot {
    /// The offset of its first byte.
    pub at: u64,
    /// How many bytes it has.
    pub len: usize,
}
