/// Why a run ended early.
#[derive(Clone, Copy, Debug, PartialEq, Eq)]
pub enum ServeFault {
    /// The file has no header that a store has.
    NotAStore,
    /// The file is of this version, which isn't known here.
    Version(u8),
    /// The file's record behind the gate at this offset, in bytes, isn't whole.
    Damaged(u64),
    /// A call of the disk failed while the file was opened, or, without a store, as the disk was synced.
    DiskFault,
    /// Memory ran out.
    NoMemory,
}
