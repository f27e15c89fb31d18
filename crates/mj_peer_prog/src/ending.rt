ghost use Rattle.std.specs.Prelude.{◌≡◌, IfOk, string_bytes};
ghost use Rattle.mj_peer_prog.specs.Endings;

use mj_base::NoMemory;
use std::alloc::Global;

/// What a run came to.
#[derive(Clone, Copy, Debug, PartialEq, Eq)]
pub enum Ending {
    /// A client's requests were all answered, so many.
    Answered(u64),
    /// A worker answered as many requests as it was to.
    Served(u64),
    /// No answer came: to the client's request of this number, from 1, or to a worker that had answered so many.
    NoAnswer(u64),
}

/// The last line of a run.
pub(crate) fn ending_line(alloc: Global, ending: Ending) -> Result<String, NoMemory>
    ensures { IfOk result (λ line. string_bytes line ≡ Endings.ending_line ending) }
{
    match ending {
        Ending::Answered(count) => Ok(format!(in alloc; "done {count}\n")?),
        Ending::Served(count) => Ok(format!(in alloc; "served {count}\n")?),
        Ending::NoAnswer(number) => Ok(format!(in alloc; "fault no-answer {number}\n")?),
    }
}

/// Whether the run wasn't given up.
pub(crate) fn is_good(ending: Ending) -> bool
    ensures { result ≡ Endings.is_good ending }
{
    match ending {
        Ending::Answered(_) => true,
        Ending::Served(_) => true,
        Ending::NoAnswer(_) => false,
    }
}
