ghost use Rattle.std.specs.Prelude.{◌≡◌, if◌then◌else◌};
ghost use Rattle.mj_peer.specs.ClientEndRules;
ghost use Rattle.mj_peer.specs.ClientEndRules.{asked, counted, fresh_talk};

use super::verdict::Verdict;
use mj_base::{Frames, Name, Version};

/// What a client's end was told and has counted.
#[derive(Drop)]
pub struct Talk {
    pub version: Version,
    pub service: Name,
    /// How many tries a request has, and how many quiet events a try.
    pub tries: u32,
    pub wait: u32,
    /// Whether greeting and READY were written on the present link.
    pub linked: bool,
    /// The body of the open request.
    pub request: Option<Frames>,
    /// The tries of the request that have ended, and the quiet events of the present one.
    pub tried: u32,
    pub quiet: u32,
    /// Whether a request was given up.
    pub over: bool,
}

impl Talk {
    pub(crate) fn new(version: Version, service: Name, tries: u32, wait: u32) -> Talk
        ensures { result ≡ fresh_talk version service tries wait }
    {
        Talk {
            version,
            service,
            tries,
            wait,
            linked: false,
            request: None,
            tried: 0,
            quiet: 0,
            over: false,
        }
    }

    /// A request's first try begins.
    pub(crate) fn open(&mut self, body: Frames)
        ensures { self.new ≡ asked body self.old }
    {
        self.linked = true;
        self.request = Some(body);
        self.tried = 0;
        self.quiet = 0;
    }

    /// A quiet event, which may be an end of the link.
    pub(crate) fn count_quiet(&mut self, ended: bool) -> Verdict
        ensures verdict { result ≡ ClientEndRules.verdict ended self.old.request self.old }
        ensures talk { self.new ≡ counted self.old.request self.old }
    {
        if self.request.is_none() {
            return again_if(ended);
        }
        if self.quiet < self.wait.saturating_sub(1) {
            self.quiet += 1;
            return again_if(ended);
        }
        if self.tried < self.tries.saturating_sub(1) {
            self.tried += 1;
            self.quiet = 0;
            return Verdict::Again;
        }
        self.over = true;
        self.request = None;
        Verdict::Lost
    }
}

/// An end opens the link anew.
pub(crate) fn again_if(ended: bool) -> Verdict
    ensures { result ≡ (if ended then Verdict.Again else Verdict.Stay) }
{
    if ended { Verdict::Again } else { Verdict::Stay }
}
