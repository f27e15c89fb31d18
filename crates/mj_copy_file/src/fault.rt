/// Why a payload isn't read or appended.
#[derive(Clone, Copy, Debug, PartialEq, Eq)]
pub enum LogFault {
    /// There was no memory.
    NoMemory,
    /// A call of the disk failed.
    Disk,
}
