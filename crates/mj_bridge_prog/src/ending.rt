ghost use Rattle.std.specs.Prelude.{◌≡◌, IfOk, string_bytes};
ghost use Rattle.mj_bridge_prog.specs.BridgeTable;

use mj_base::NoMemory;
use mj_peering::Leaving;
use std::alloc::Global;

/// What a run came to, with the number of REQUESTs that were answered.
#[derive(Clone, Copy, Debug, PartialEq, Eq)]
pub enum Ending {
    /// They were as many as were to be.
    Bridged(u64),
    /// A side has given up.
    NoAnswer(u64),
}

pub(crate) fn ending_by(leaving: Leaving, served: u64) -> Ending
    ensures { result ≡ BridgeTable.ending_by leaving served }
{
    match leaving {
        Leaving::Finished => Ending::Bridged(served),
        Leaving::NoAnswer => Ending::NoAnswer(served),
    }
}

/// The last line of a run.
pub(crate) fn ending_line(alloc: Global, ending: Ending) -> Result<String, NoMemory>
    ensures { IfOk result (λ line. string_bytes line ≡ BridgeTable.ending_line ending) }
{
    match ending {
        Ending::Bridged(count) => Ok(format!(in alloc; "bridged {count}\n")?),
        Ending::NoAnswer(count) => Ok(format!(in alloc; "fault no-answer {count}\n")?),
    }
}

/// Whether the run wasn't given up.
pub(crate) fn is_good(ending: Ending) -> bool
    ensures { result ≡ BridgeTable.is_good ending }
{
    match ending {
        Ending::Bridged(_) => true,
        Ending::NoAnswer(_) => false,
    }
}
