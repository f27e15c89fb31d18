//! How a taker that sleeps is woken.
use std::sync::Wait;
use std::sync::atomic::{AtomicU64, Ordering};

/// The bell of one taker. It says nothing of what there is to take, so that no contract speaks of it.
#[derive(Drop)]
pub struct Bell {
    rings: AtomicU64,
    asleep: AtomicU64,
}

impl Bell {
    pub fn new() -> Bell {
        Bell {
            rings: AtomicU64::new(0),
            asleep: AtomicU64::new(0),
        }
    }

    /// Wakes the taker, where it sleeps or is about to: once for each sleep.
    pub fn ring(&self) {
        if self.asleep.load(Ordering::SeqCst) != 0 && self.asleep.swap(0, Ordering::SeqCst) != 0 {
            self.rings.fetch_add(1, Ordering::SeqCst);
            self.rings.wake_one();
        }
    }

    /// The taker is about to sleep: it looks once more whether there is anything, and then rises, or sleeps with this answer.
    pub fn listen(&self) -> u32 {
        self.asleep.store(1, Ordering::SeqCst);
        (self.rings.load(Ordering::SeqCst) & 0xffff_ffff) as u32
    }

    /// The taker doesn't sleep.
    pub fn rise(&self) {
        self.asleep.store(0, Ordering::SeqCst);
    }

    /// Sleeps until the bell rings, unless it has since `listen`.
    pub fn sleep<R: Wait>(&self, rt: &R, heard: u32) {
        self.rings.park(rt, heard);
    }
}
