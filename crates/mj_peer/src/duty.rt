ghost use Rattle.std.specs.Prelude.{◌≡◌};
ghost use Rattle.mj_peer.specs.WorkerEndRules;
ghost use Rattle.mj_peer.specs.WorkerEndRules.{counted, fresh_duty, heard, served};

use super::talk::again_if;
use super::verdict::Verdict;
use mj_base::{Name, Version};

/// What a worker's end was told and has counted.
#[derive(Drop)]
pub struct Duty {
    pub version: Version,
    pub service: Name,
    pub tries: u32,
    /// How many partial replies stand before each final one in 0.2; in 0.1 there are none.
    pub parts: u32,
    /// How many requests it answers before it leaves; 0: it doesn't leave.
    pub count: u64,
    /// The tries that have ended, and the quiet events of the present one.
    pub tried: u32,
    pub quiet: u32,
    /// The requests that were answered, which stop at 2^64 - 1.
    pub served: u64,
    /// Whether it has left or given up.
    pub over: bool,
}

/// How many quiet events a try has.
const WAIT: u32 = 75;

impl Duty {
    pub(crate) fn new(version: Version, service: Name, tries: u32, parts: u32, count: u64) -> Duty
        ensures { result ≡ fresh_duty version service tries parts count }
    {
        Duty {
            version,
            service,
            tries,
            parts,
            count,
            tried: 0,
            quiet: 0,
            served: 0,
            over: false,
        }
    }

    /// An order of its version came.
    pub(crate) fn hear(&mut self)
        ensures { self.new ≡ heard self.old }
    {
        self.tried = 0;
        self.quiet = 0;
    }

    pub(crate) fn count_served(&mut self)
        ensures { self.new ≡ served self.old }
    {
        self.served = self.served.saturating_add(1);
    }

    /// Whether as many requests were answered as were to be.
    pub(crate) fn is_finished(&self) -> bool
        ensures { result ≡ WorkerEndRules.is_finished self.now }
    {
        0 < self.count && self.count <= self.served
    }

    /// A quiet event, which may be an end of the link.
    pub(crate) fn count_quiet(&mut self, ended: bool) -> Verdict
        ensures verdict { result ≡ WorkerEndRules.verdict ended self.old }
        ensures duty { self.new ≡ counted self.old }
    {
        if self.quiet < WAIT - 1 {
            self.quiet += 1;
            return again_if(ended);
        }
        if self.tried < self.tries.saturating_sub(1) {
            self.tried += 1;
            self.quiet = 0;
            return Verdict::Again;
        }
        self.over = true;
        Verdict::Lost
    }
}
