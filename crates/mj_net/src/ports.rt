ghost use Rattle.std.specs.Prelude.{◌≡◌, ◌<◌, ◌≤◌, ◌||◌, [], ◌∷◌, ◌++◌, All, true, length, nat_lt, if◌then◌else◌};
ghost use Rattle.mj_base.specs.EventBounds.{IsWithin};
ghost use Rattle.mj_base.specs.declared.event.Event.TheVariants as event;
ghost use Rattle.mj_base.specs.declared.event.Out.TheVariants as outs;
ghost use Rattle.mj_lanes.specs.declared.outlet.Item.TheVariants as item;
ghost use Rattle.mj_net.specs.Passing.{AreNewPorts, Act, PortsState, ended, most_entries, passes, put_at};
ghost use Rattle.mj_net.specs.Standing.{Stands};
ghost use Rattle.mj_serve.specs.Given.{is_stop};

use super::slot::Slot;
use super::unwritten::Unwritten;
use mj_base::{Event, NoMemory, Note, Octets, Reason};
use mj_disk::Disk;
use mj_lanes::{HubPass, PieceSink};
use mj_serve::Ports;
use std::alloc::Global;
use std::marker::Model;
use std::sync::{Arc, Wait};

/// So many entries of the inbox are taken at most.
const LAST_ENTRY: u64 = (1 << 60) - 1;

/// The most lanes.
const LANES: usize = 64;

/// Ports over the lanes: events come of the inbox, and pieces and end marks go into the outlets. What goes from there to the
/// peers without waiting is written before the ports wait for the next entry, and now and then while entries come.
#[derive(Drop)]
pub struct NetPorts<R, K> {
    rt: R,
    hub: HubPass<R>,
    slots: Vec<Arc<Slot<R, K>, Global>>,
    unwritten: Unwritten,
    lanes: u32,
    /// Whether the lane has a connection that wasn't ended.
    opened: [bool; LANES],
    taken: u64,
    stopped: bool,
}

impl<R, K> Model for NetPorts<R, K> {
    ghost use Rattle.std.specs.Prelude.{◌≡◌, ◌≤◌, length};
    ghost use Rattle.mj_net.specs.Passing.{PortsState};

    ghost Value = { PortsState };

    ghost view = { λ p. record { taken = p.hub.taken; lanes = record { outlets = p.hub.outlets; opened = p.opened }; stopped = p.stopped } };

    ghost invariant = { λ p. (p.lanes ≡ length p.hub.outlets) × (p.lanes ≤ 64) × (p.taken ≡ length p.hub.taken) };
}

impl<R, K> NetPorts<R, K> {
    /// Ports over a hub that has taken and put nothing, with so many lanes, and the slot of each.
    pub(crate) fn new(
        rt: R,
        hub: HubPass<R>,
        slots: Vec<Arc<Slot<R, K>, Global>>,
        lanes: u32,
    ) -> NetPorts<R, K>
        requires lanes { (lanes ≡ length hub.outlets) × (lanes ≤ 64) }
        requires taken { hub.taken ≡ [] }
        requires put { All (λ o. o.put ≡ []) hub.outlets }
        ensures new { AreNewPorts lanes result }
        ensures stands { Stands result result [] [] }
    {
        NetPorts {
            rt,
            hub,
            slots,
            unwritten: Unwritten::new(),
            lanes,
            opened: [false; LANES],
            taken: 0,
            stopped: false,
        }
    }
}

impl<R: Wait + Copy + Drop, K: PieceSink + Drop> NetPorts<R, K> {
    /// Takes an entry of the inbox, or gives the end where no more are taken.
    fn take(&mut self) -> Event
        ensures full { most_entries ≤ length self.old.taken → (result ≡ event.Stop) × (self.new ≡ record self.old { stopped = true }) }
        ensures takes { length self.old.taken < most_entries → self.new ≡ record { taken = self.old.taken ++ result ∷ []; lanes = passes self.old.lanes (Act.Took result); stopped = self.old.stopped || is_stop result } }
        ensures within { IsWithin (length self.old.lanes.outlets) result }
        ensures lanes { length self.new.lanes.outlets ≡ length self.old.lanes.outlets }
    {
        if self.taken >= LAST_ENTRY {
            self.stopped = true;
            return Event::Stop;
        }
        let event = next_entry(
            &self.rt,
            &mut self.hub,
            self.slots.as_slice(),
            &mut self.unwritten,
        );
        self.taken += 1;
        self.follow(&event);
        if self.stopped {
            write_out(&self.rt, self.slots.as_slice(), &mut self.unwritten);
        }
        event
    }

    /// Does at the lanes what this event brings with it.
    fn follow(&mut self, event: &Event)
        requires { IsWithin (length self.old.lanes.outlets) event.now }
        ensures follows { self.new ≡ record self.old { lanes = passes self.old.lanes (Act.Took event.now); stopped = self.old.stopped || is_stop event.now } }
        ensures lanes { length self.new.lanes.outlets ≡ length self.old.lanes.outlets }
    {
        match event {
            Event::Open(lane) => self.opened[*lane as usize] = true,
            Event::Close(lane) => {
                if self.opened[*lane as usize] {
                    self.mark(*lane);
                }
            }
            Event::Stop => self.stopped = true,
            Event::Bytes(..) | Event::Sent(_) | Event::Tick(_) => {}
        }
    }

    /// Puts an end mark into the lane's outlet.
    fn mark(&mut self, lane: u32)
        requires { lane < length self.old.lanes.outlets }
        ensures ends { self.new ≡ record self.old { lanes = ended self.old.lanes lane } }
        ensures lanes { length self.new.lanes.outlets ≡ length self.old.lanes.outlets }
    {
        mark_lane(&mut self.hub, lane);
        self.unwritten.note(lane);
        self.opened[lane as usize] = false;
    }

    /// Ends the lane's connection, where there is this lane.
    fn end_lane(&mut self, lane: u32)
        ensures ends { self.new ≡ record self.old { lanes = if nat_lt lane (length self.old.lanes.outlets) then ended self.old.lanes lane else self.old.lanes } }
        ensures lanes { length self.new.lanes.outlets ≡ length self.old.lanes.outlets }
    {
        if lane < self.lanes {
            self.mark(lane);
        }
    }

    /// Puts a piece into the lane's outlet, where there is this lane.
    fn put_piece(&mut self, lane: u32, piece: Octets)
        ensures puts { self.new ≡ record self.old { lanes = passes self.old.lanes (Act.Gave (outs.Piece lane piece)) } }
        ensures lanes { length self.new.lanes.outlets ≡ length self.old.lanes.outlets }
    {
        if lane < self.lanes {
            put_lane(&mut self.hub, lane, piece);
            self.unwritten.note(lane);
        }
    }
}

/// Takes the next entry of the inbox. What goes to the peers without waiting is written first, where the inbox is empty or
/// enough was put.
fn next_entry<R: Wait + Copy + Drop, K: PieceSink + Drop>(
    rt: &R,
    hub: &mut HubPass<R>,
    slots: &[Arc<Slot<R, K>, Global>],
    unwritten: &mut Unwritten,
) -> Event
    ensures taken { hub.new ≡ record hub.old { taken = hub.old.taken ++ result ∷ [] } }
    ensures within { IsWithin (length hub.old.outlets) result }
{
    if !unwritten.is_due() {
        if let Some(event) = hub.poll() {
            return event;
        }
    }
    write_out(rt, slots, unwritten);
    hub.take()
}

/// Writes to each lane to which something was put since the last time.
fn write_out<R: Wait + Copy + Drop, K: PieceSink + Drop>(
    rt: &R,
    slots: &[Arc<Slot<R, K>, Global>],
    unwritten: &mut Unwritten,
) {
    for lane in 0..slots.len() {
        if unwritten.has(lane) {
            slots[lane].write_out(rt);
        }
    }
    unwritten.clear();
}

fn put_lane<R: Wait>(hub: &mut HubPass<R>, lane: u32, piece: Octets)
    requires { lane < length hub.old.outlets }
    ensures puts { hub.new ≡ record hub.old { outlets = put_at hub.old.outlets lane (item.Piece piece) } }
    ensures taken { hub.new.taken ≡ hub.old.taken }
    ensures lanes { length hub.new.outlets ≡ length hub.old.outlets }
{
    hub.put(lane, piece);
}

fn mark_lane<R: Wait>(hub: &mut HubPass<R>, lane: u32)
    requires { lane < length hub.old.outlets }
    ensures puts { hub.new ≡ record hub.old { outlets = put_at hub.old.outlets lane item.Mark } }
    ensures taken { hub.new.taken ≡ hub.old.taken }
    ensures lanes { length hub.new.outlets ≡ length hub.old.outlets }
{
    hub.mark(lane);
}

impl<R: Wait + Copy + Drop, K: PieceSink + Drop> Ports for NetPorts<R, K> {
    ghost use Rattle.std.specs.Prelude.{◌-◌, length};
    ghost use Rattle.mj_net.specs.Passing.{most_entries};
    ghost use Rattle.mj_net.specs.Standing.{Stands};

    ghost stand = { Stands };

    ghost left = { λ p. most_entries - length p.taken };

    ghost stopped = { λ p. p.stopped };

    ghost lanes_in = { λ p. length p.lanes.outlets };

    fn lanes(&self) -> u32 {
        self.lanes
    }

    fn next(&mut self) -> Result<Event, NoMemory> {
        Ok(self.take())
    }

    fn put<D: Disk>(&mut self, lane: u32, piece: Octets, _disk: &D) {
        self.put_piece(lane, piece);
    }

    fn end(&mut self, lane: u32, _reason: Reason, _at: u64) {
        self.end_lane(lane);
    }

    /// No lane is told.
    fn note(&mut self, _note: Note) {}
}
