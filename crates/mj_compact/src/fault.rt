use mj_journal::OpenFault;

/// Why a file isn't compacted.
#[derive(Clone, Copy, Debug, PartialEq, Eq)]
pub enum CompactFault {
    /// The old file can't be opened. The new one wasn't touched.
    Unopened(OpenFault),
    /// The old file's next number is above 2^61, the greatest base of a file. The new one wasn't touched.
    Numbers,
    /// The new file isn't empty. It wasn't written.
    NotEmpty,
    /// The bytes at this offset of the old file, where a body was written, are no body: somebody else wrote the file.
    Damaged(u64),
    /// Memory ran out.
    NoMemory,
    /// A call of one of the disks failed.
    DiskFault,
}
