ghost use Rattle.std.specs.Prelude.{◌≡◌};
ghost use Rattle.mj_copy_prog.specs.Statuses.{code_of};

/// How a call ended.
#[derive(Clone, Copy, Debug, PartialEq, Eq)]
pub enum Status {
    /// The copy has all commands.
    Done,
    /// The words aren't of this command.
    Words,
    /// The file is refused.
    Store,
    /// There was no memory.
    NoMemory,
    /// A call of the disk failed.
    Disk,
    /// A read of the link failed.
    Read,
    /// A write failed.
    Write,
    /// The other end didn't answer.
    NoAnswer,
}

/// The number that the program exits with.
pub(crate) fn code(status: Status) -> u8
    ensures { result ≡ code_of status }
{
    match status {
        Status::Done => 0,
        Status::Words => 1,
        Status::Store => 3,
        Status::NoMemory => 4,
        Status::Disk => 5,
        Status::Read => 6,
        Status::Write => 7,
        Status::NoAnswer => 8,
    }
}
