/// Why a note isn't appended.
#[derive(Clone, Copy, Debug, PartialEq, Eq)]
pub enum FileFault {
    /// There was no memory.
    NoMemory,
    /// A call of the disk failed.
    Disk,
}
