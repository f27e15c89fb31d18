/// Why a file isn't opened.
#[derive(Clone, Copy, Debug, PartialEq, Eq)]
pub enum OpenFault {
    /// It has no header that a store has.
    NotAStore,
    /// It is of this version, which isn't known here.
    Version(u8),
    /// The record behind the gate at this offset isn't whole.
    Damaged(u64),
    /// A call of the disk failed.
    DiskFault,
    /// Memory ran out.
    NoMemory,
}

/// Why a payload isn't appended.
#[derive(Clone, Copy, Debug, PartialEq, Eq)]
pub enum AppendFault {
    /// An earlier append met a fault of the disk. The file has to be opened again.
    Spent,
    /// Memory ran out. Nothing changed.
    NoMemory,
    /// A call of the disk failed. The payload may be in the file or not, and the journal is spent.
    DiskFault,
}
