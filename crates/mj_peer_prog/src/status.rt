ghost use Rattle.std.specs.Prelude.{◌≡◌};
ghost use Rattle.mj_peer_prog.specs.Statuses.{code_of};

/// How a call ended.
#[derive(Clone, Copy)]
pub enum Status {
    /// The input was read to its end and answered, or a worker answered as many requests as it was to.
    Done,
    /// The words aren't of these commands.
    Words,
    /// There was no memory.
    NoMemory,
    /// A read failed.
    Read,
    /// A write failed.
    Write,
    /// No answer came.
    NoAnswer,
}

/// The number that the program exits with.
pub(crate) fn code(status: Status) -> u8
    ensures { result ≡ code_of status }
{
    match status {
        Status::Done => 0,
        Status::Words => 1,
        Status::NoMemory => 4,
        Status::Read => 6,
        Status::Write => 7,
        Status::NoAnswer => 8,
    }
}
