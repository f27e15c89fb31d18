ghost use Rattle.std.specs.Prelude.{None};

use mj_lanes::Clock;
use std::time::{Duration, Instant};
use std::{thread, time};

/// How long it is from one moment to the next, in milliseconds.
const TICK_MS: u64 = 100;

/// The greatest moment, in milliseconds.
const LAST_MS: u64 = 1_000_000_000_000_000;

/// The system's clock. It tells nothing of the moments that it gave.
#[derive(Drop)]
pub struct StdClock<R> {
    rt: R,
    start: Option<Instant>,
}

impl<R: time::Clock> StdClock<R> {
    /// A clock that starts now.
    pub fn new(rt: R) -> StdClock<R> {
        let start = Instant::now(&rt).ok();
        StdClock { rt, start }
    }
}

impl<R: time::Clock> Clock for StdClock<R> {
    ghost gave = { λ _. None };

    /// A clock that can't be read gives 0.
    fn next(&mut self) -> u64 {
        thread::sleep(&self.rt, Duration::from_millis(TICK_MS));
        match since(&self.rt, self.start) {
            Some(ms) if ms < LAST_MS => ms,
            Some(_) => LAST_MS,
            None => 0,
        }
    }
}

/// The milliseconds since this start, where the clock can be read.
fn since<R: time::Clock>(rt: &R, start: Option<Instant>) -> Option<u64> {
    let elapsed = start?.elapsed(rt).ok()?;
    u64::try_from(elapsed.as_millis()).ok()
}
