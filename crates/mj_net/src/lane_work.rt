use super::door::Desk;
use super::slot::Slot;
use mj_base::Event;
use mj_lanes::{Clock, LanePass, TickPass, read_loop, tick_loop};
use std::alloc::Global;
use std::sync::{Arc, Wait};

/// What a thread does.
#[derive(Drop)]
pub enum Work<R, D: Desk, C> {
    /// Takes in a lane's connections, one after the other, and sends what each peer sends.
    Read(R, Global, LanePass<R>, D, Arc<Slot<R, D::Out>, Global>),
    /// Writes to a lane's peers what the hub leaves.
    Write(R, Arc<Slot<R, D::Out>, Global>),
    /// Sends the moments of the clock, and the end at so many milliseconds, or none at 0.
    Tick(TickPass<R>, C, u64),
}

impl<R: Wait + Copy + Drop, D: Desk + Drop, C: Clock + Drop> Work<R, D, C> {
    /// Does the work, which may have no end.
    pub fn run(self) {
        match self {
            Work::Read(rt, alloc, mut pass, mut desk, slot) => {
                read_lane(&rt, alloc, &mut pass, &mut desk, &slot);
            }
            Work::Write(rt, slot) => slot.write_on(&rt),
            Work::Tick(mut pass, mut clock, until) => tick_loop(&mut pass, &mut clock, until),
        }
    }
}

/// Reads one connection of the lane after the other. A desk that gives none closes the slot.
fn read_lane<R: Wait + Copy + Drop, D: Desk>(
    rt: &R,
    alloc: Global,
    pass: &mut LanePass<R>,
    desk: &mut D,
    slot: &Slot<R, D::Out>,
) {
    for _ in rt.forever() {
        slot.wait_free(rt);
        let Some((mut source, sink)) = desk.accept() else {
            slot.close(rt);
            return;
        };
        slot.fill(rt, sink);
        pass.send(Event::Open(pass.lane()));
        let _ = read_loop(alloc, pass, &mut source);
    }
}
