ghost use Rattle.std.specs.Prelude.{◌≡◌};
ghost use Rattle.mj_bridge_prog.specs.BridgeRun.{leaving_by, leaving_in};
ghost use Rattle.mj_peering.specs.WorkerRun as Worker;

use mj_bridge::BridgeAct;
use mj_peer::Act;
use mj_peering::Leaving;

/// How the bridge leaves by these acts, if it does.
pub(crate) fn leaving_among(acts: &[BridgeAct]) -> Option<Leaving>
    ensures { result ≡ leaving_in acts.now }
{
    for act in acts {
        if let Some(leaving) = leaving_of(act) {
            return Some(leaving);
        }
    }
    None
}

fn leaving_of(act: &BridgeAct) -> Option<Leaving>
    ensures { result ≡ leaving_by act.now }
{
    match act {
        BridgeAct::Near(act) => leaving_by_act(act),
        BridgeAct::Far(act) => leaving_by_act(act),
    }
}

fn leaving_by_act(act: &Act) -> Option<Leaving>
    ensures { result ≡ Worker.leaving_by act.now }
{
    match act {
        Act::Finished => Some(Leaving::Finished),
        Act::NoAnswer => Some(Leaving::NoAnswer),
        Act::Write(_) | Act::Reopen | Act::Part(_) | Act::Done(_) | Act::Served => None,
    }
}
