/// Why a ticket isn't accepted.
#[derive(Clone, Copy, Debug, PartialEq, Eq)]
pub enum AcceptFault {
    /// An earlier call met a fault of the disk. The file has to be opened again.
    Spent,
    /// There are as many open tickets as the limits allow, or the file would become longer than they allow. Nothing
    /// changed.
    Full,
    /// Memory ran out. Nothing changed.
    NoMemory,
    /// A call of the disk failed. The ticket may be in the file or not, and the store is spent.
    DiskFault,
}

/// Why a body isn't read.
#[derive(Clone, Copy, Debug, PartialEq, Eq)]
pub enum BodyFault {
    /// An earlier call met a fault of the disk. The file has to be opened again.
    Spent,
    /// Memory ran out. Nothing changed.
    NoMemory,
    /// A call of the disk failed, and the store is spent. The file has what it had.
    DiskFault,
    /// The bytes at this offset, where the body was written, are no body: somebody else wrote the file.
    Damaged(u64),
}
