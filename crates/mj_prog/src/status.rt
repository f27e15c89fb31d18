ghost use Rattle.std.specs.Prelude.{◌≡◌};
ghost use Rattle.mj_prog.specs.Statuses.{code_of};

/// How a call ended.
#[derive(Clone, Copy)]
pub enum Status {
    /// The input was read to its end or to `stop`, and all was printed.
    Done,
    /// The words aren't of this program.
    Words,
    /// A line of the script is unlawful.
    Line,
    /// The file is refused as a store.
    Store,
    /// There was no memory.
    NoMemory,
    /// A call of the disk failed as a run began.
    Disk,
    /// A read failed.
    Read,
    /// A write failed.
    Write,
}

/// The number that the program exits with.
pub fn code(status: Status) -> u8
    ensures { result ≡ code_of status }
{
    match status {
        Status::Done => 0,
        Status::Words => 1,
        Status::Line => 2,
        Status::Store => 3,
        Status::NoMemory => 4,
        Status::Disk => 5,
        Status::Read => 6,
        Status::Write => 7,
    }
}
