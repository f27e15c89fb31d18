ghost use Rattle.std.specs.Prelude.{◌≡◌, ◌≤◌, [], true, false, IsOk, OnOk, OnErr, IfOk};
ghost use Rattle.mj_peer.specs.WorkerEndRules.{Met, Started, fresh, starts, steps};
ghost use Rattle.mj_peer.specs.WorkerStands.{Follows, GoesOn, Stands};

use super::act::Acts;
use super::post::Post;
use mj_base::{LinkEvent, Name, NoMemory, Version};
use std::alloc::Global;

/// A worker: it serves one service, and answers each request with the request's own body.
#[derive(Drop)]
pub struct WorkerEnd {
    post: Post,
    spent: bool,
    ghost live: { spent ≡ false → post.wire.spent ≡ false },
}

impl WorkerEnd {
    /// An end for this service. It gives up after so many `tries` of 75 quiet events: nothing came for 100 ms, the link
    /// ended, its stream broke the rules, or the broker sent it away. Each answer has so many partial replies before the
    /// final one, none in 0.1. Behind so many answers it leaves; a `count` of 0 has no end.
    pub fn new(
        alloc: Global,
        version: Version,
        service: Name,
        tries: u32,
        parts: u32,
        count: u64,
    ) -> Result<WorkerEnd, NoMemory>
        requires { 1 ≤ tries }
        ensures stands { IfOk result (λ end. Stands end.post (fresh version service tries parts count)) }
        ensures ready { IfOk result (λ end. end.spent ≡ false) }
    {
        Ok(WorkerEnd {
            post: Post::new(alloc, version, service, tries, parts, count)?,
            spent: false,
        })
    }

    /// The acts with which its first link begins.
    pub fn start(&mut self, alloc: Global) -> Result<Acts, NoMemory>
        requires { self.old.spent ≡ false }
        ensures turn { IfOk result (λ acts. Follows self.old.post self.new.post [] acts starts) }
        ensures run { IfOk result (λ acts. GoesOn self.old.post self.new.post acts Started) }
        ensures ready { OnOk result (self.new.spent ≡ false) }
        ensures spent { OnErr result (self.new.spent ≡ true) }
        ensures over { self.old.post.duty.over ≡ true → IsOk result × (self.new ≡ self.old) × IfOk result (λ acts. acts ≡ []) }
    {
        let mut acts = Acts::new(alloc);
        if self.post.duty.over {
            return Ok(acts);
        }
        self.spent = true;
        self.post.greet(alloc, &mut acts)?;
        self.spent = false;
        Ok(acts)
    }

    /// The acts that follow on what the link gave. After it has left or given up there are none.
    pub fn step(&mut self, alloc: Global, event: LinkEvent) -> Result<Acts, NoMemory>
        requires { self.old.spent ≡ false }
        ensures turn { IfOk result (λ acts. Follows self.old.post self.new.post [] acts (steps event)) }
        ensures run { IfOk result (λ acts. GoesOn self.old.post self.new.post acts (Met event)) }
        ensures ready { OnOk result (self.new.spent ≡ false) }
        ensures spent { OnErr result (self.new.spent ≡ true) }
        ensures over { self.old.post.duty.over ≡ true → IsOk result × (self.new ≡ self.old) × IfOk result (λ acts. acts ≡ []) }
    {
        let mut acts = Acts::new(alloc);
        if self.post.duty.over {
            return Ok(acts);
        }
        self.spent = true;
        self.post.happen(alloc, &event, &mut acts)?;
        self.spent = false;
        Ok(acts)
    }

    /// Whether it has left or given up.
    pub fn is_over(&self) -> bool
        ensures { result ≡ self.now.post.duty.over }
    {
        self.post.is_over()
    }

    /// How many requests were answered.
    pub fn served(&self) -> u64
        ensures { result ≡ self.now.post.duty.served }
    {
        self.post.served()
    }

    /// Whether memory ran out in an earlier call; then no other may follow.
    pub fn is_spent(&self) -> bool
        ensures { result ≡ self.now.spent }
    {
        self.spent
    }
}
