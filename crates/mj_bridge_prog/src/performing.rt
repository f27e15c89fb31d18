//! The acts of a bridge, done to its two links.
ghost use Rattle.std.specs.Prelude.{◌≡◌, ◌≤◌, OnOk, OnErr, IfErr};
ghost use Rattle.mj_base.specs.Linking.{Tells};
ghost use Rattle.mj_bridge_prog.specs.Sides.{AreLater, Breaks, Moves, PerformCause, Performs, WriteCause, counts, far_of, near_of, sides};
ghost use Rattle.mj_peering.specs.Performing.{entries_of};

use mj_base::{Link, LinkWrite};
use mj_bridge::{BridgeAct, BridgeActs};
use mj_peer::Act;
use mj_peering::Stop;

/// Does these acts, up to one that fails.
pub(crate) fn perform_all<N: Link, F: Link>(
    acts: &BridgeActs,
    near: &mut N,
    far: &mut F,
) -> Result<(), Stop>
    ensures done { OnOk result (Performs (sides (N.told near.old) (F.told far.old)) (sides (N.told near.new) (F.told far.new)) acts.now) }
    ensures broken { OnErr result (Breaks (sides (N.told near.old) (F.told far.old)) (sides (N.told near.new) (F.told far.new)) acts.now) }
    ensures cause { IfErr result (λ stop. PerformCause stop (counts (N.read_faults near.old) (N.write_faults near.old) (F.read_faults far.old) (F.write_faults far.old)) (counts (N.read_faults near.new) (N.write_faults near.new) (F.read_faults far.new) (F.write_faults far.new))) }
    ensures later { AreLater (counts (N.read_faults near.old) (N.write_faults near.old) (F.read_faults far.old) (F.write_faults far.old)) (counts (N.read_faults near.new) (N.write_faults near.new) (F.read_faults far.new) (F.write_faults far.new)) }
{
    for act in acts.as_slice() {
        perform(act, near, far)?;
    }
    Ok(())
}

fn perform<N: Link, F: Link>(act: &BridgeAct, near: &mut N, far: &mut F) -> Result<(), Stop>
    ensures done { OnOk result (Moves (sides (N.told near.old) (F.told far.old)) (sides (N.told near.new) (F.told far.new)) (near_of act.now) (far_of act.now)) }
    ensures near { OnErr result (N.told near.new ≡ N.told near.old) }
    ensures far { OnErr result (F.told far.new ≡ F.told far.old) }
    ensures cause { IfErr result (λ stop. PerformCause stop (counts (N.read_faults near.old) (N.write_faults near.old) (F.read_faults far.old) (F.write_faults far.old)) (counts (N.read_faults near.new) (N.write_faults near.new) (F.read_faults far.new) (F.write_faults far.new))) }
    ensures later { AreLater (counts (N.read_faults near.old) (N.write_faults near.old) (F.read_faults far.old) (F.write_faults far.old)) (counts (N.read_faults near.new) (N.write_faults near.new) (F.read_faults far.new) (F.write_faults far.new)) }
{
    match act {
        BridgeAct::Near(act) => do_act(act, near),
        BridgeAct::Far(act) => do_act(act, far),
    }
}

/// What an act says to its link.
fn do_act<L: Link>(act: &Act, link: &mut L) -> Result<(), Stop>
    ensures done { OnOk result (Tells (L.told link.old) (L.told link.new) (entries_of act.now)) }
    ensures broken { OnErr result (L.told link.new ≡ L.told link.old) }
    ensures cause { IfErr result (λ stop. WriteCause stop (L.write_faults link.old) (L.write_faults link.new)) }
    ensures reads { L.read_faults link.old ≤ L.read_faults link.new }
    ensures writes { L.write_faults link.old ≤ L.write_faults link.new }
{
    match act {
        Act::Write(text) => match link.write(text.as_slice()) {
            LinkWrite::Done => Ok(()),
            LinkWrite::NoMemory => Err(Stop::NoMemory),
            LinkWrite::Failed => Err(Stop::Write),
        },
        Act::Reopen => Ok(link.reopen()?),
        Act::Part(_) | Act::Done(_) | Act::Served | Act::Finished | Act::NoAnswer => Ok(()),
    }
}
