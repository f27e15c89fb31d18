ghost use Rattle.std.specs.Prelude.{◌≡◌, true, OnOk};
ghost use Rattle.mj_prog.specs.Running.{halt_by, halt_at, halt_for, is_stopped};

use super::script_ports::Stage;
use mj_base::WriteAnswer;
use mj_serve::{ServeFault, Summary};

/// Why a file is refused as a store.
#[derive(Clone, Copy)]
pub enum StoreFault {
    /// It has no header that a store has.
    NotAStore,
    /// It is of this version, which isn't known here.
    Version(u8),
    /// Its record behind the gate at this offset, in bytes, isn't whole.
    Damaged(u64),
}

/// Why a run takes no further event.
#[derive(Clone, Copy)]
pub enum Halt {
    /// The script has no further event.
    Over,
    /// The line of this number is unlawful.
    Line(u64),
    /// The file is refused.
    Store(StoreFault),
    /// A call of the disk failed as the run began.
    Disk,
    /// A read failed.
    Read,
    /// A write failed.
    Write,
    /// There was no memory.
    NoMemory,
}

/// Why a run ended that gave this answer, with the script and the last write as they are then.
pub fn halt_of(answer: &Result<Summary, ServeFault>, stage: Stage, wrote: WriteAnswer) -> Halt
    requires { OnOk answer.now (is_stopped stage ≡ true) }
    ensures { result ≡ halt_by answer.now stage wrote }
{
    match wrote {
        WriteAnswer::Failed => Halt::Write,
        WriteAnswer::NoMemory => Halt::NoMemory,
        WriteAnswer::Done => match answer {
            Ok(_summary) => halt_at_stage(stage),
            Err(fault) => halt_for_fault(*fault),
        },
    }
}

fn halt_at_stage(stage: Stage) -> Halt
    requires { is_stopped stage ≡ true }
    ensures { result ≡ halt_at stage }
{
    match stage {
        Stage::Going => unreachable!(),
        Stage::Over => Halt::Over,
        Stage::Line(number) => Halt::Line(number),
        Stage::Unread => Halt::Read,
        Stage::Unwritten => Halt::Write,
    }
}

fn halt_for_fault(fault: ServeFault) -> Halt
    ensures { result ≡ halt_for fault }
{
    match fault {
        ServeFault::NotAStore => Halt::Store(StoreFault::NotAStore),
        ServeFault::Version(version) => Halt::Store(StoreFault::Version(version)),
        ServeFault::Damaged(at) => Halt::Store(StoreFault::Damaged(at)),
        ServeFault::DiskFault => Halt::Disk,
        ServeFault::NoMemory => Halt::NoMemory,
    }
}
