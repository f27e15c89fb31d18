ghost use Rattle.std.specs.Prelude.{◌≡◌};
ghost use Rattle.mj_compact_prog.specs.Halts;

use mj_compact::CompactFault;
use mj_journal::OpenFault;

/// What is said of a file that is refused.
#[derive(Clone, Copy)]
pub enum Refusal {
    /// The old file isn't a store.
    NotAStore,
    /// The old file is of another version.
    Version(u8),
    /// The bytes at this offset of the old file are damaged.
    Damaged(u64),
    /// The old file's next number is above 2^61.
    Numbers,
    /// The new file isn't empty.
    NotEmpty,
}

/// Why a file isn't compacted.
#[derive(Clone, Copy)]
pub enum Halt {
    /// A file is refused.
    Refused(Refusal),
    /// There was no memory.
    NoMemory,
    /// A call of one of the disks failed.
    Disk,
}

pub(crate) fn halt_of(fault: CompactFault) -> Halt
    ensures { result ≡ Halts.halt_of fault }
{
    match fault {
        CompactFault::Unopened(fault) => unopened(fault),
        CompactFault::Numbers => Halt::Refused(Refusal::Numbers),
        CompactFault::NotEmpty => Halt::Refused(Refusal::NotEmpty),
        CompactFault::Damaged(at) => Halt::Refused(Refusal::Damaged(at)),
        CompactFault::NoMemory => Halt::NoMemory,
        CompactFault::DiskFault => Halt::Disk,
    }
}

fn unopened(fault: OpenFault) -> Halt
    ensures { result ≡ Halts.unopened fault }
{
    match fault {
        OpenFault::NotAStore => Halt::Refused(Refusal::NotAStore),
        OpenFault::Version(version) => Halt::Refused(Refusal::Version(version)),
        OpenFault::Damaged(at) => Halt::Refused(Refusal::Damaged(at)),
        OpenFault::NoMemory => Halt::NoMemory,
        OpenFault::DiskFault => Halt::Disk,
    }
}
