ghost use Rattle.std.specs.Prelude.{◌≡◌, ◌<◌, ◌≤◌, ℕ, List, Option, [], ◌∷◌, true, false};
ghost use Rattle.std.specs.Io.KnownBytes.{Appends};
ghost use Rattle.mj_lanes.specs.TickSteps.{IsEarly, TicksAll};

use super::TickPass;
use std::sync::Wait;

/// What tells the time.
pub trait Clock {
    /// The moments that it gave, where it tells.
    ghost gave: { Self → Option (List ℕ) };

    /// Waits for the next moment, and gives the milliseconds since the start, or 1,000,000,000,000,000 where they
    /// are more.
    fn next(&mut self) -> u64
        ensures gave { Appends (gave self.old) (gave self.new) (result ∷ []) }
        ensures most { result ≤ 1000000000000000 };
}

/// Sends each moment of the clock. Where `until` isn't 0, it sends `Stop` after the first moment that isn't below
/// it, and returns; it returns only then.
pub fn tick_loop<R: Wait + Copy, C: Clock>(pass: &mut TickPass<R>, clock: &mut C, until: u64)
    ensures inbox { pass.new.inbox ≡ pass.old.inbox }
    ensures sent { TicksAll until pass.old.sent pass.new.sent (C.gave clock.old) (C.gave clock.new) }
{
    let rt = pass.handle();
    for _ in rt.forever() {
        let moment = clock.next();
        pass.tick(moment);
        if is_last(until, moment) {
            pass.stop();
            return;
        }
    }
    unreachable!()
}

/// Whether there is an end and this moment has reached it.
fn is_last(until: u64, moment: u64) -> bool
    ensures last { result ≡ true → (0 < until) × (until ≤ moment) }
    ensures early { result ≡ false → IsEarly until moment }
{
    until != 0 && until <= moment
}
