ghost use Rattle.std.specs.Prelude.{◌≡◌};
ghost use Rattle.mj_bridge_prog.specs.BridgeTable.{code_of};

/// How a call ended.
#[derive(Clone, Copy)]
pub enum Status {
    /// As many REQUESTs were answered as were to be.
    Done,
    /// The words aren't of this command.
    Words,
    /// There was no memory.
    NoMemory,
    /// A read of a link failed.
    Read,
    /// A write of a link or of the last line failed.
    Write,
    /// One of the brokers was silent or gone for all its tries.
    NoAnswer,
}

/// The number that the program exits with.
pub(crate) fn code(status: Status) -> u8
    ensures { result ≡ code_of status }
{
    match status {
        Status::Done => 0,
        Status::Words => 1,
        Status::NoMemory => 4,
        Status::Read => 6,
        Status::Write => 7,
        Status::NoAnswer => 8,
    }
}
