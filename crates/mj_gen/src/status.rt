ghost use Rattle.std.specs.Prelude.{◌≡◌};
ghost use Rattle.mj_gen.specs.Statuses.{code_of};

/// How a call ended.
#[derive(Clone, Copy)]
pub enum Status {
    /// All events were taken, and all was printed.
    Done,
    /// The file is refused as a store.
    Store,
    /// There was no memory.
    NoMemory,
    /// A call of the disk failed.
    Disk,
    /// A write failed.
    Write,
}

/// The number that the program exits with.
pub fn code(status: Status) -> u8
    ensures { result ≡ code_of status }
{
    match status {
        Status::Done => 0,
        Status::Store => 3,
        Status::NoMemory => 4,
        Status::Disk => 5,
        Status::Write => 7,
    }
}
