/// One change of a disk in memory, with its moment.
#[derive(Clone, Copy)]
pub(crate) enum Entry {
    /// A write of so many bytes.
    Wrote { moment: u64, at: u64, len: u64 },
    /// A failed write of so many bytes.
    Touched { moment: u64, at: u64, len: u64 },
    /// A sync.
    Synced { moment: u64 },
}
