//! What the passing of time does (the guide, chapter 4).
ghost use Rattle.std.specs.Prelude.{◌≡◌, ◌≤◌, [], IsOk, OnOk};
ghost use Rattle.mj_machine.specs.TickStep.{all_beat, beats, due_numbers, leases_end, silent_numbers, ticks};
ghost use Rattle.mj_queue.specs.Settling.{pair};
ghost use Rattle.mj_routing.specs.RoutingState.{Does, IsIdleAt};
ghost use Rattle.mj_keeper.specs.Standing.{told_on};

use crate::routing::Routing;
use crate::text::order_octets;
use mj_base::{NoMemory, Out};
use mj_keeper::Keeper;
use mj_worker_cmd::OrderAct;
use std::alloc::Global;

impl Routing {
    /// It is so many milliseconds since the start: leases end, and then heartbeats are sent.
    pub fn tick(
        &mut self,
        alloc: Global,
        ms: u64,
        tickets: &Keeper,
        outs: &mut Vec<Out>,
    ) -> Result<(), NoMemory>
        requires { ms ≤ 1000000000000000 }
        ensures done { OnOk result (Does self.new outs.old.items outs.new.items (ticks ms (told_on tickets.now.shelf) self.old)) }
        ensures idle { IsIdleAt ms self.old → IsOk result }
        ensures pair { IsIdleAt ms self.old → OnOk result (pair self.new.waiting self.new.queue ≡ pair self.old.waiting self.old.queue) }
    {
        self.set_moment(ms);
        self.end_leases(alloc, tickets)?;
        self.beat_all(alloc, tickets, outs)
    }

    fn end_leases(&mut self, alloc: Global, tickets: &Keeper) -> Result<(), NoMemory>
        ensures done { OnOk result (self.new ≡ leases_end (told_on tickets.now.shelf) self.old) }
        ensures idle { due_numbers self.old ≡ [] → IsOk result }
    {
        let mut due = Vec::new(alloc);
        self.due(&mut due)?;
        for number in &due {
            self.expire(*number, tickets)?;
        }
        Ok(())
    }

    fn beat_all(
        &mut self,
        alloc: Global,
        tickets: &Keeper,
        outs: &mut Vec<Out>,
    ) -> Result<(), NoMemory>
        ensures done { OnOk result (Does self.new outs.old.items outs.new.items (all_beat (told_on tickets.now.shelf) self.old)) }
        ensures idle { silent_numbers self.old ≡ [] → IsOk result }
    {
        if !self.has_silent() {
            return Ok(());
        }
        let mut silent = Vec::new(alloc);
        self.silent(&mut silent)?;
        for number in &silent {
            self.beat(alloc, *number, tickets, outs)?;
        }
        Ok(())
    }

    fn beat(
        &mut self,
        alloc: Global,
        number: u64,
        tickets: &Keeper,
        outs: &mut Vec<Out>,
    ) -> Result<(), NoMemory>
        ensures { OnOk result (Does self.new outs.old.items outs.new.items (beats number (told_on tickets.now.shelf) self.old)) }
    {
        let voice = self.voice_of(number);
        let piece = order_octets(alloc, voice, OrderAct::Heartbeat)?;
        self.send(number, piece, tickets, outs)
    }
}
