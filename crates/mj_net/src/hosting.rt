ghost use Rattle.std.specs.Prelude.{◌≡◌, ◌+◌, ◌*◌, ◌-◌, ◌≤◌, ◌^◌, ℕ, [], All, length, min, vec_len, IfOk, IfErr, OnOk};
ghost use Rattle.std.specs.Fn.{FnOnceReturnsAtMut, FnOnceTakesAtMut};
ghost use Rattle.mj_net.specs.Hosts.{HostCause};
ghost use Rattle.mj_net.specs.Passing.{AreNewPorts, PortsState};
ghost use Rattle.mj_net.specs.Standing.{Stands};
ghost use Rattle.mj_net.specs.declared.hosting.HostFault;

use super::door::{Desk, Door};
use super::lane_work::Work;
use super::ports::NetPorts;
use super::slot::Slot;
use super::spawner::Spawner;
use mj_lanes::{Clock, HubPass, LanePass, PieceSink, TickPass, WriterPass, lanes_new};
use std::alloc::Global;
use std::sync::{Arc, Wait};

/// Why a host didn't run its hub.
#[derive(Clone, Copy, Debug, PartialEq, Eq)]
pub enum HostFault {
    /// It can't listen at this address, or has no desk for a lane.
    Listen,
    /// A thread can't be started.
    Spawn,
    /// There was no memory.
    NoMemory,
}

/// Listens, starts a reader and a writer for each of 1 to 64 lanes and the ticker, each as a work of its own, and then
/// runs the hub over the lanes. It answers what the hub answered, and doesn't wait for the works. The ticker sends the end
/// once so many milliseconds have passed, or never at 0.
pub fn host<
    R: Wait + Copy + Drop,
    D: Door,
    C: Clock + Drop,
    T: Spawner<Work<R, D::Desk, C>>,
    F: FnOnce(&mut NetPorts<R, <D::Desk as Desk>::Out>) -> u8 + Drop,
>(
    rt: R,
    alloc: Global,
    address: &str,
    lanes: u32,
    until: u64,
    door: &mut D,
    spawner: &mut T,
    clock: C,
    hub: F,
) -> Result<u8, HostFault>
    requires lanes { (1 ≤ lanes) × (lanes ≤ 64) }
    requires ready { T.ready spawner.old }
    requires hub { (ports : PortsState) → AreNewPorts lanes ports → FnOnceTakesAtMut F.FnOnce hub ports }
    ensures status { IfOk result (λ status. (before after : PortsState) × FnOnceReturnsAtMut F.FnOnce hub before status after × AreNewPorts lanes before × Stands before before [] []) }
    ensures started { OnOk result (T.count spawner.new ≡ min (T.count spawner.old + 2 * lanes + 1) (2 ^ 64 - 1)) }
    ensures cause { IfErr result (λ fault. HostCause fault (D.faults door.old) (D.faults door.new) (T.faults spawner.old) (T.faults spawner.new)) }
{
    if door.listen(address).is_err() {
        return Err(HostFault::Listen);
    }
    let desks = desks(alloc, lanes, door)?;
    let Ok((pass, readers, writers, ticks)) = lanes_new(rt, alloc, lanes) else {
        return Err(HostFault::NoMemory);
    };
    let slots = slots(alloc, writers)?;
    start_all(
        rt, alloc, readers, &slots, desks, ticks, clock, until, lanes, spawner,
    )?;
    Ok(run_hub(rt, pass, slots, lanes, hub))
}

/// A desk for each lane.
fn desks<D: Door>(alloc: Global, lanes: u32, door: &mut D) -> Result<Vec<D::Desk>, HostFault>
    ensures length { IfOk result (λ desks. vec_len desks ≡ lanes) }
    ensures later { D.faults door.old ≤ D.faults door.new }
    ensures err { IfErr result (λ fault. (before now : ℕ) → HostCause fault (D.faults door.old) (D.faults door.new) before now) }
{
    let mut desks = Vec::new(alloc);
    for _lane in 0..lanes {
        match door.desk() {
            Ok(desk) => match desks.push(desk) {
                Ok(()) => {}
                Err(_) => return Err(HostFault::NoMemory),
            },
            Err(_) => return Err(HostFault::Listen),
        }
    }
    Ok(desks)
}

/// A slot for each lane, with its writer's pass.
fn slots<R: Drop, K: Drop>(
    alloc: Global,
    mut writers: Vec<WriterPass<R>>,
) -> Result<Vec<Arc<Slot<R, K>, Global>>, HostFault>
    ensures length { IfOk result (λ slots. vec_len slots ≡ vec_len writers) }
    ensures err { IfErr result (λ fault. fault ≡ HostFault.NoMemory) }
{
    let mut slots = Vec::new(alloc);
    while let Some(writer) = writers.pop() {
        let Ok(slot) = Arc::new(alloc, Slot::new(writer)) else {
            return Err(HostFault::NoMemory);
        };
        match slots.push(slot) {
            Ok(()) => {}
            Err(_) => return Err(HostFault::NoMemory),
        }
    }
    slots.reverse();
    Ok(slots)
}

/// Starts the works of all lanes, and the ticker's.
fn start_all<R: Wait + Copy + Drop, D: Desk + Drop, C: Clock + Drop, T: Spawner<Work<R, D, C>>>(
    rt: R,
    alloc: Global,
    mut readers: Vec<LanePass<R>>,
    slots: &[Arc<Slot<R, D::Out>, Global>],
    mut desks: Vec<D>,
    ticks: TickPass<R>,
    clock: C,
    until: u64,
    lanes: u32,
    spawner: &mut T,
) -> Result<(), HostFault>
    requires ready { T.ready spawner.old }
    requires lengths { (vec_len readers ≡ lanes) × (length slots.now ≡ lanes) × (vec_len desks ≡ lanes) }
    ensures ok { OnOk result (T.count spawner.new ≡ min (T.count spawner.old + 2 * lanes + 1) (2 ^ 64 - 1)) }
    ensures later { T.faults spawner.old ≤ T.faults spawner.new }
    ensures err { IfErr result (λ fault. (before now : ℕ) → HostCause fault before now (T.faults spawner.old) (T.faults spawner.new)) }
{
    for _turn in 0..lanes {
        let Some(reader) = readers.pop() else {
            unreachable!();
        };
        let Some(desk) = desks.pop() else {
            unreachable!();
        };
        match start_lane(rt, alloc, reader, &slots[readers.len()], desk, spawner) {
            Ok(()) => {}
            Err(fault) => return Err(fault),
        }
    }
    start(spawner, Work::Tick(ticks, clock, until))
}

/// Starts the reader and the writer of a lane.
fn start_lane<R: Wait + Copy + Drop, D: Desk + Drop, C: Clock + Drop, T: Spawner<Work<R, D, C>>>(
    rt: R,
    alloc: Global,
    reader: LanePass<R>,
    slot: &Arc<Slot<R, D::Out>, Global>,
    desk: D,
    spawner: &mut T,
) -> Result<(), HostFault>
    requires ready { T.ready spawner.old }
    ensures ready { T.ready spawner.new }
    ensures ok { OnOk result (T.count spawner.new ≡ min (T.count spawner.old + 2) (2 ^ 64 - 1)) }
    ensures later { T.faults spawner.old ≤ T.faults spawner.new }
    ensures err { IfErr result (λ fault. (before now : ℕ) → HostCause fault before now (T.faults spawner.old) (T.faults spawner.new)) }
{
    let (Ok(for_reader), Ok(for_writer)) = (Arc::try_clone(slot), Arc::try_clone(slot)) else {
        return Err(HostFault::NoMemory);
    };
    start(spawner, Work::Read(rt, alloc, reader, desk, for_reader))?;
    start(spawner, Work::Write(rt, for_writer))
}

/// Starts one work.
fn start<W, T: Spawner<W>>(spawner: &mut T, work: W) -> Result<(), HostFault>
    requires ready { T.ready spawner.old }
    ensures ready { T.ready spawner.new }
    ensures ok { OnOk result (T.count spawner.new ≡ min (T.count spawner.old + 1) (2 ^ 64 - 1)) }
    ensures later { T.faults spawner.old ≤ T.faults spawner.new }
    ensures err { IfErr result (λ fault. (before now : ℕ) → HostCause fault before now (T.faults spawner.old) (T.faults spawner.new)) }
{
    match spawner.spawn(work) {
        Ok(()) => Ok(()),
        Err(_) => Err(HostFault::Spawn),
    }
}

/// Runs the hub over new ports.
fn run_hub<R: Wait + Copy + Drop, K: PieceSink + Drop, F: FnOnce(&mut NetPorts<R, K>) -> u8>(
    rt: R,
    pass: HubPass<R>,
    slots: Vec<Arc<Slot<R, K>, Global>>,
    lanes: u32,
    hub: F,
) -> u8
    requires lanes { (lanes ≡ length pass.outlets) × (lanes ≤ 64) }
    requires taken { pass.taken ≡ [] }
    requires put { All (λ o. o.put ≡ []) pass.outlets }
    requires hub { (ports : PortsState) → AreNewPorts lanes ports → FnOnceTakesAtMut F.FnOnce hub ports }
    ensures { (before after : PortsState) × FnOnceReturnsAtMut F.FnOnce hub before result after × AreNewPorts lanes before × Stands before before [] [] }
{
    let mut ports = NetPorts::new(rt, pass, slots, lanes);
    run_over(&mut ports, hub)
}

fn run_over<R, K, F: FnOnce(&mut NetPorts<R, K>) -> u8>(ports: &mut NetPorts<R, K>, hub: F) -> u8
    requires { FnOnceTakesAtMut F.FnOnce hub ports.old }
    ensures { FnOnceReturnsAtMut F.FnOnce hub ports.old result ports.new }
{
    hub(ports)
}
