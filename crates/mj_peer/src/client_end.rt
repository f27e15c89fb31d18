ghost use Rattle.std.specs.Prelude.{◌≡◌, ◌≤◌, [], true, false, is_some, IsOk, OnOk, OnErr, IfOk};
ghost use Rattle.mj_peer.specs.ClientEndRules.{Asked, Met, asks, fresh, steps};
ghost use Rattle.mj_peer.specs.ClientStands.{Follows, GoesOn, Stands};

use super::act::Acts;
use super::session::Session;
use mj_base::{Frames, LinkEvent, Name, NoMemory, Version};
use std::alloc::Global;

/// A client: it asks one service, a request at a time, and tries again where no answer comes.
#[derive(Drop)]
pub struct ClientEnd {
    session: Session,
    spent: bool,
    ghost live: { spent ≡ false → session.wire.spent ≡ false },
}

impl ClientEnd {
    /// An end for this service. A request has so many `tries`, and a try is over at `wait` quiet events: nothing came for
    /// 100 ms, the link ended, or its stream broke the rules.
    pub fn new(
        alloc: Global,
        version: Version,
        service: Name,
        tries: u32,
        wait: u32,
    ) -> Result<ClientEnd, NoMemory>
        requires tries { 1 ≤ tries }
        requires wait { 1 ≤ wait }
        ensures stands { IfOk result (λ end. Stands end.session (fresh version service tries wait)) }
        ensures ready { IfOk result (λ end. end.spent ≡ false) }
        ensures closed { IfOk result (λ end. is_some end.session.talk.request ≡ false) }
    {
        Ok(ClientEnd {
            session: Session::new(alloc, version, service, tries, wait)?,
            spent: false,
        })
    }

    /// Asks: the acts of a new request, whose first try begins. After a request was given up there are none.
    pub fn ask(&mut self, alloc: Global, body: &Frames) -> Result<Acts, NoMemory>
        requires ready { self.old.spent ≡ false }
        requires closed { is_some self.old.session.talk.request ≡ false }
        ensures turn { IfOk result (λ acts. Follows self.old.session self.new.session [] acts (asks body.now)) }
        ensures run { IfOk result (λ acts. GoesOn self.old.session self.new.session acts (Asked body.now)) }
        ensures ready { OnOk result (self.new.spent ≡ false) }
        ensures spent { OnErr result (self.new.spent ≡ true) }
        ensures over { self.old.session.talk.over ≡ true → IsOk result × (self.new ≡ self.old) × IfOk result (λ acts. acts ≡ []) }
    {
        let mut acts = Acts::new(alloc);
        if self.session.talk.over {
            return Ok(acts);
        }
        self.spent = true;
        self.session.open(alloc, body, &mut acts)?;
        self.spent = false;
        Ok(acts)
    }

    /// The acts that follow on what the link gave. After a request was given up there are none.
    pub fn step(&mut self, alloc: Global, event: LinkEvent) -> Result<Acts, NoMemory>
        requires { self.old.spent ≡ false }
        ensures turn { IfOk result (λ acts. Follows self.old.session self.new.session [] acts (steps event)) }
        ensures run { IfOk result (λ acts. GoesOn self.old.session self.new.session acts (Met event)) }
        ensures ready { OnOk result (self.new.spent ≡ false) }
        ensures spent { OnErr result (self.new.spent ≡ true) }
        ensures over { self.old.session.talk.over ≡ true → IsOk result × (self.new ≡ self.old) × IfOk result (λ acts. acts ≡ []) }
    {
        let mut acts = Acts::new(alloc);
        if self.session.talk.over {
            return Ok(acts);
        }
        self.spent = true;
        self.session.happen(alloc, &event, &mut acts)?;
        self.spent = false;
        Ok(acts)
    }

    /// Whether a request is open.
    pub fn is_asking(&self) -> bool
        ensures { result ≡ is_some self.now.session.talk.request }
    {
        self.session.talk.request.is_some()
    }

    /// Whether a request was given up.
    pub fn is_over(&self) -> bool
        ensures { result ≡ self.now.session.talk.over }
    {
        self.session.talk.over
    }

    /// Whether memory ran out in an earlier call; then no other may follow.
    pub fn is_spent(&self) -> bool
        ensures { result ≡ self.now.spent }
    {
        self.spent
    }
}
