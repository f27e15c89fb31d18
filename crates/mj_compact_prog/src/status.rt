ghost use Rattle.std.specs.Prelude.{◌≡◌};
ghost use Rattle.mj_compact_prog.specs.Statuses.{code_of};

/// How a call ended.
#[derive(Clone, Copy)]
pub enum Status {
    /// The new file was made, and its tickets were counted.
    Done,
    /// The words aren't of this command.
    Words,
    /// One of the files is refused.
    Store,
    /// There was no memory.
    NoMemory,
    /// A call of one of the disks failed.
    Disk,
    /// A write failed.
    Write,
}

/// The number that the program exits with.
pub(crate) fn code(status: Status) -> u8
    ensures { result ≡ code_of status }
{
    match status {
        Status::Done => 0,
        Status::Words => 1,
        Status::Store => 3,
        Status::NoMemory => 4,
        Status::Disk => 5,
        Status::Write => 7,
    }
}
