ghost use Rattle.std.specs.Prelude.{◌≡◌};
ghost use Rattle.mj_peering.specs.WorkerRun.{leaving_by, leaving_in};

use mj_peer::Act;

/// How a worker left.
#[derive(Clone, Copy, Debug, PartialEq, Eq)]
pub enum Leaving {
    /// It answered as many requests as it was to.
    Finished,
    /// It gave up: the broker was silent or gone for all its tries.
    NoAnswer,
}

/// How the worker leaves by these acts, if it does.
pub(crate) fn leaving_among(acts: &[Act]) -> Option<Leaving>
    ensures { result ≡ leaving_in acts.now }
{
    for act in acts {
        if let Some(leaving) = leaving_of(act) {
            return Some(leaving);
        }
    }
    None
}

fn leaving_of(act: &Act) -> Option<Leaving>
    ensures { result ≡ leaving_by act.now }
{
    match act {
        Act::Finished => Some(Leaving::Finished),
        Act::NoAnswer => Some(Leaving::NoAnswer),
        Act::Write(_) | Act::Reopen | Act::Part(_) | Act::Done(_) | Act::Served => None,
    }
}
