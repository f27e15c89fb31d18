ghost use Rattle.std.specs.Prelude.{◌≡◌, ◌≤◌, [], vec_len, IfOk, OnOk};
ghost use Rattle.crossbeam_channel.specs.Ends.{sends_on};
ghost use Rattle.mj_lanes.specs.Ends.{name_of};
ghost use Rattle.mj_lanes.specs.Passes.{AreNew, AreOfOne};

use super::ends::Line;
use super::entry::{BySender, Entry};
use super::{HubPass, LanePass, TickPass, WriterPass};
use mj_base::NoMemory;
use std::alloc::Global;

/// The passes of 1 to 64 lanes: the hub's, each lane's reader's and writer's, and the ticker's. The inbox holds
/// 1,024 entries, and each lane's outlet 4,097 pieces and end marks.
pub fn lanes_new<R: Copy + Drop>(
    rt: R,
    alloc: Global,
    lanes: u32,
) -> Result<
    (
        HubPass<R>,
        Vec<LanePass<R>>,
        Vec<WriterPass<R>>,
        TickPass<R>,
    ),
    NoMemory,
>
    requires { (1 ≤ lanes) × (lanes ≤ 64) }
    ensures hub { IfOk result (λ r. r.0.taken ≡ []) }
    ensures lanes { IfOk result (λ r. AreNew r.0.inbox lanes r.0.outlets r.1.items r.2.items) }
    ensures ticks { IfOk result (λ r. r.3 ≡ record { inbox = r.0.inbox; sent = [] }) }
    ensures one { IfOk result (λ r. AreOfOne r.0 r.1.items r.2.items r.3) }
    ensures lengths { IfOk result (λ r. (vec_len r.1 ≡ lanes) × (vec_len r.2 ≡ lanes)) }
{
    let (mut hub, line, ticks) = HubPass::new(rt, alloc)?;
    let (readers, writers) = add_lanes(&mut hub, rt, alloc, &line, lanes)?;
    Ok((hub, readers, writers, ticks))
}

/// Adds so many lanes to a hub that has none.
fn add_lanes<R: Copy + Drop>(
    hub: &mut HubPass<R>,
    rt: R,
    alloc: Global,
    line: &Line<Entry, BySender>,
    lanes: u32,
) -> Result<(Vec<LanePass<R>>, Vec<WriterPass<R>>), NoMemory>
    requires line { hub.old.inbox ≡ name_of (sends_on line.now) }
    requires none { hub.old.outlets ≡ [] }
    ensures hub { OnOk result ((hub.new.inbox ≡ hub.old.inbox) × (hub.new.taken ≡ hub.old.taken)) }
    ensures lanes { IfOk result (λ r. AreNew hub.old.inbox lanes hub.new.outlets r.0.items r.1.items) }
    ensures lengths { IfOk result (λ r. (vec_len r.0 ≡ lanes) × (vec_len r.1 ≡ lanes)) }
{
    let mut readers = Vec::new(alloc);
    let mut writers = Vec::new(alloc);
    for lane in 0..lanes {
        let (reader, writer) = hub.add_lane(rt, alloc, line, lane)?;
        readers.push(reader)?;
        writers.push(writer)?;
    }
    Ok((readers, writers))
}
