//! What is done by a submitter, call by call.
ghost use Rattle.std.specs.Prelude.{◌≡◌, ◌≤◌, ◌<◌, ◌+◌, ◌++◌, ◌∷◌, [], List, ℕ, true, false, None, is_some, nat_le, OnOk, IfOk};
ghost use Rattle.mj_submit.specs.SubmitRules as rules;
ghost use Rattle.mj_submit.specs.SubmitRules.{Ends, Gives, Line, acts, answers, answers_at, closes, continues, does, fresh, gives, issues, pends, refuses, sweep, wakes_up};
ghost use Rattle.mj_submitter.specs.Courses;
ghost use Rattle.mj_submitter.specs.Courses.{Follows, FollowsTo, Restarts, Stands, quiet_by, act_effects, effects_of_act};

use super::answer::{behind_first, code_of, has_code, id_of};
use super::effect::{Effect, Effects, Ending};
use super::question::{body_at, service_at};
use super::submitter::Submitter;
use mj_base::{Frames, LinkEvent, Name, NoMemory, Octets, Version};
use mj_ids::TicketId;
use mj_peer::{Act, ClientEnd};
use mj_submit::{Note, Progress, Stage};
use std::alloc::Global;

/// So many quiet events after a `300` it is asked again.
const PAUSE: u64 = 10;

impl Submitter {
    /// A submitter of lines to this service, with a file that is so far. `tries` and `wait` are those of each call's end;
    /// a line's reply is asked for at most `polls` times.
    pub fn new(
        alloc: Global,
        name: Name,
        tries: u32,
        wait: u32,
        polls: u32,
        progress: &Progress,
    ) -> Result<Submitter, NoMemory>
        requires tries { 1 ≤ tries }
        requires wait { 1 ≤ wait }
        requires polls { 1 ≤ polls }
        ensures stands { IfOk result (λ s. Stands s (fresh name tries wait polls progress.now)) }
        ensures ready { IfOk result (λ s. s.client.spent ≡ false) }
        ensures idle { IfOk result (λ s. (s.line ≡ None) × (s.over ≡ false)) }
    {
        let client = ClientEnd::new(alloc, Version::One, service_at(&Stage::Fresh), tries, wait)?;
        Ok(Submitter {
            name,
            tries,
            wait,
            polls,
            progress: *progress,
            had: progress.closed,
            lines: 0,
            line: None,
            client,
            first: true,
            polled: 0,
            paused: None,
            over: false,
        })
    }

    /// Whether a line is at work. Then the link is read next, and else the input.
    pub fn is_working(&self) -> bool
        ensures { result ≡ is_some self.now.line }
    {
        self.line.is_some()
    }

    /// Whether there is nothing more to do.
    pub fn is_over(&self) -> bool
        ensures { result ≡ self.now.over }
    {
        self.over
    }

    /// A line is read.
    pub fn take(&mut self, alloc: Global, line: Octets) -> Result<Effects, NoMemory>
        requires ready { self.old.client.spent ≡ false }
        ensures turn { IfOk result (λ effects. Follows self.old self.new [] effects (does (Line line))) }
        ensures ready { OnOk result (self.new.client.spent ≡ false) }
    {
        let mut effects = Effects::new(alloc);
        let number = one_more(self.lines)?;
        self.lines = number;
        if self.is_closed(number) {
            return Ok(effects);
        }
        self.line = Some(line);
        self.polled = 0;
        self.go_on(alloc, &mut effects)?;
        Ok(effects)
    }

    /// The link gave this.
    pub fn give(&mut self, alloc: Global, event: LinkEvent) -> Result<Effects, NoMemory>
        requires ready { self.old.client.spent ≡ false }
        requires working { is_some self.old.line ≡ true }
        ensures turn { IfOk result (λ effects. Follows self.old self.new [] effects (does (Gives event))) }
        ensures ready { OnOk result (self.new.client.spent ≡ false) }
    {
        let mut effects = Effects::new(alloc);
        self.count_event(&event)?;
        let acts = self.client.step(alloc, event)?;
        self.sweep(alloc, acts.as_slice(), &mut effects)?;
        self.wake(alloc, &mut effects)?;
        Ok(effects)
    }

    /// The input is at its end.
    pub fn finish(&mut self, alloc: Global) -> Result<Effects, NoMemory>
        requires ready { self.old.client.spent ≡ false }
        ensures turn { IfOk result (λ effects. Follows self.old self.new [] effects (does Ends)) }
        ensures ready { OnOk result (self.new.client.spent ≡ false) }
    {
        let mut effects = Effects::new(alloc);
        let closed = self.progress.closed.saturating_sub(self.had);
        self.stop(Ending::Finished { closed }, &mut effects)?;
        Ok(effects)
    }

    /// The next call for the line at work begins, with an end of its own.
    fn go_on(&mut self, alloc: Global, effects: &mut Effects) -> Result<(), NoMemory>
        requires { self.old.client.spent ≡ false }
        ensures turn { OnOk result (Restarts self.old self.new effects.old effects.new continues) }
        ensures ready { OnOk result (self.new.client.spent ≡ false) }
    {
        let Some(line) = &self.line else {
            return Ok(());
        };
        let body = body_at(alloc, &self.progress.stage, &self.name, line)?;
        let service = service_at(&self.progress.stage);
        let mut client = ClientEnd::new(alloc, Version::One, service, self.tries, self.wait)?;
        let acts = client.ask(alloc, &body)?;
        push_reopening(self.first, effects)?;
        push_acts(alloc, acts.as_slice(), effects)?;
        self.client = client;
        self.first = false;
        self.paused = None;
        Ok(())
    }

    /// Does these acts of the call's end, up to one that ends the call.
    fn sweep(&mut self, alloc: Global, list: &[Act], effects: &mut Effects) -> Result<(), NoMemory>
        requires { self.old.client.spent ≡ false }
        ensures turn { OnOk result (Follows self.old self.new effects.old effects.new (sweep list.now)) }
        ensures ready { OnOk result (self.new.client.spent ≡ false) }
    {
        for act in list {
            if self.act(alloc, act, effects)? {
                return Ok(());
            }
        }
        Ok(())
    }

    /// Does an act of the call's end; answers whether the call is over.
    fn act(&mut self, alloc: Global, act: &Act, effects: &mut Effects) -> Result<bool, NoMemory>
        requires { self.old.client.spent ≡ false }
        ensures turn { IfOk result (λ ended. FollowsTo ended self.old self.new effects.old effects.new (acts act.now)) }
        ensures ready { OnOk result (self.new.client.spent ≡ false) }
    {
        match act {
            Act::Write(text) => {
                effects.push(Effect::Write(Octets::copy_of(alloc, text.as_slice())?))?;
                Ok(false)
            }
            Act::Reopen => {
                self.count_quiet()?;
                effects.push(Effect::Reopen)?;
                Ok(false)
            }
            Act::Part(_) | Act::Served | Act::Finished => Ok(false),
            Act::Done(body) => self.hear(alloc, body, effects),
            Act::NoAnswer => {
                let line = self.present()?;
                self.stop(Ending::NoAnswer { line }, effects)?;
                Ok(true)
            }
        }
    }

    /// One more quiet event, while it is waited.
    fn count_quiet(&mut self) -> Result<(), NoMemory>
        ensures { OnOk result (self.new ≡ record self.old { paused = rules.quieter self.old.paused }) }
    {
        let Some(quiet) = self.paused else {
            return Ok(());
        };
        let Some(quiet) = quiet.checked_add(1) else {
            return Err(NoMemory);
        };
        self.paused = Some(quiet);
        Ok(())
    }

    /// `Idle` is a quiet event.
    fn count_event(&mut self, event: &LinkEvent) -> Result<(), NoMemory>
        ensures { OnOk result (self.new ≡ record self.old { paused = quiet_by event.now self.old.paused }) }
    {
        match event {
            LinkEvent::Idle => self.count_quiet(),
            LinkEvent::Given(_) | LinkEvent::End => Ok(()),
        }
    }

    /// After ten quiet events it is asked again.
    fn wake(&mut self, alloc: Global, effects: &mut Effects) -> Result<(), NoMemory>
        requires { self.old.client.spent ≡ false }
        ensures turn { OnOk result (Follows self.old self.new effects.old effects.new wakes_up) }
        ensures ready { OnOk result (self.new.client.spent ≡ false) }
    {
        let Some(quiet) = self.paused else {
            return Ok(());
        };
        if quiet < PAUSE {
            return Ok(());
        }
        self.go_on(alloc, effects)
    }

    /// The answer for the line at work; answers whether the call is over.
    fn hear(
        &mut self,
        alloc: Global,
        body: &Frames,
        effects: &mut Effects,
    ) -> Result<bool, NoMemory>
        requires { self.old.client.spent ≡ false }
        ensures turn { IfOk result (λ ended. FollowsTo ended self.old self.new effects.old effects.new (answers_at self.old.line body.now)) }
        ensures ready { OnOk result (self.new.client.spent ≡ false) }
    {
        if !self.is_working() {
            return Ok(false);
        }
        let stage = self.progress.stage;
        match &stage {
            Stage::Fresh => self.hear_ticket(alloc, body, effects),
            Stage::Ticket(id) => self.hear_reply(alloc, id, body, effects),
            Stage::Delivered(_) => self.hear_close(body, effects),
        }
    }

    /// The answer of a submission.
    fn hear_ticket(
        &mut self,
        alloc: Global,
        body: &Frames,
        effects: &mut Effects,
    ) -> Result<bool, NoMemory>
        requires { self.old.client.spent ≡ false }
        ensures turn { IfOk result (λ ended. FollowsTo ended self.old self.new effects.old effects.new (answers Stage.Fresh body.now)) }
        ensures ready { OnOk result (self.new.client.spent ≡ false) }
    {
        self.issue(alloc, id_of(body), body, effects)?;
        Ok(true)
    }

    /// The answer of a fetching.
    fn hear_reply(
        &mut self,
        alloc: Global,
        id: &TicketId,
        body: &Frames,
        effects: &mut Effects,
    ) -> Result<bool, NoMemory>
        requires { self.old.client.spent ≡ false }
        ensures turn { IfOk result (λ ended. FollowsTo ended self.old self.new effects.old effects.new (answers (Stage.Ticket id.now) body.now)) }
        ensures ready { OnOk result (self.new.client.spent ≡ false) }
    {
        if has_code(body, b"300") {
            return self.pend(effects);
        }
        if !has_code(body, b"200") {
            self.refuse(body, effects)?;
            return Ok(true);
        }
        self.give_reply(alloc, id, behind_first(body)?, effects)?;
        Ok(true)
    }

    /// The answer of a closing.
    fn hear_close(&mut self, body: &Frames, effects: &mut Effects) -> Result<bool, NoMemory>
        requires { self.old.client.spent ≡ false }
        ensures turn { IfOk result (λ ended. (id : List ℕ) → FollowsTo ended self.old self.new effects.old effects.new (answers (Stage.Delivered id) body.now)) }
        ensures ready { OnOk result (self.new.client.spent ≡ false) }
    {
        if !has_code(body, b"200") {
            self.refuse(body, effects)?;
            return Ok(true);
        }
        self.close(effects)?;
        Ok(true)
    }

    /// The ticket's record is to be appended.
    fn issue(
        &mut self,
        alloc: Global,
        found: Option<TicketId>,
        body: &Frames,
        effects: &mut Effects,
    ) -> Result<(), NoMemory>
        requires { self.old.client.spent ≡ false }
        ensures turn { OnOk result (Follows self.old self.new effects.old effects.new (issues found body.now)) }
        ensures ready { OnOk result (self.new.client.spent ≡ false) }
    {
        let Some(id) = found else {
            return self.refuse(body, effects);
        };
        let line = self.present()?;
        effects.push(Effect::Note(Note::Issued { line, id }))?;
        self.progress.stage = Stage::Ticket(id);
        self.go_on(alloc, effects)
    }

    /// A reply that isn't there yet is waited for, but for the last poll; answers whether the call is over.
    fn pend(&mut self, effects: &mut Effects) -> Result<bool, NoMemory>
        requires { self.old.client.spent ≡ false }
        ensures turn { IfOk result (λ ended. FollowsTo ended self.old self.new effects.old effects.new pends) }
        ensures ready { OnOk result (self.new.client.spent ≡ false) }
    {
        if self.polled + 1 < self.polls {
            self.polled += 1;
            self.paused = Some(0);
            return Ok(false);
        }
        let line = self.present()?;
        self.stop(Ending::NoReply { line }, effects)?;
        Ok(true)
    }

    /// The reply is to be printed, and then its record to be appended.
    fn give_reply(
        &mut self,
        alloc: Global,
        id: &TicketId,
        reply: Frames,
        effects: &mut Effects,
    ) -> Result<(), NoMemory>
        requires { self.old.client.spent ≡ false }
        ensures turn { OnOk result (Follows self.old self.new effects.old effects.new (gives id.now reply)) }
        ensures ready { OnOk result (self.new.client.spent ≡ false) }
    {
        let line = self.present()?;
        effects.push(Effect::Print { line, body: reply })?;
        effects.push(Effect::Note(Note::Given { line }))?;
        self.progress.stage = Stage::Delivered(*id);
        self.go_on(alloc, effects)
    }

    /// The ticket is closed, and its record is to be appended.
    fn close(&mut self, effects: &mut Effects) -> Result<(), NoMemory>
        requires { self.old.client.spent ≡ false }
        ensures turn { OnOk result (Follows self.old self.new effects.old effects.new closes) }
        ensures ready { OnOk result (self.new.client.spent ≡ false) }
    {
        let line = self.present()?;
        effects.push(Effect::Note(Note::Closed { line }))?;
        self.progress = Progress {
            closed: line,
            stage: Stage::Fresh,
        };
        self.line = None;
        Ok(())
    }

    fn refuse(&mut self, body: &Frames, effects: &mut Effects) -> Result<(), NoMemory>
        requires { self.old.client.spent ≡ false }
        ensures turn { OnOk result (Follows self.old self.new effects.old effects.new (refuses body.now)) }
        ensures ready { OnOk result (self.new.client.spent ≡ false) }
    {
        let line = self.present()?;
        let code = code_of(body);
        self.stop(Ending::Refused { line, code }, effects)
    }

    fn stop(&mut self, ending: Ending, effects: &mut Effects) -> Result<(), NoMemory>
        ensures stopped { OnOk result (self.new ≡ record self.old { over = true; line = None }) }
        ensures effects { OnOk result (effects.new ≡ effects.old ++ Effect.End ending ∷ []) }
    {
        effects.push(Effect::End(ending))?;
        self.over = true;
        self.line = None;
        Ok(())
    }

    /// The number of the line at work.
    fn present(&self) -> Result<u64, NoMemory>
        ensures { IfOk result (λ line. line ≡ self.now.progress.closed + 1) }
    {
        one_more(self.progress.closed)
    }

    /// Whether the file has this line as closed.
    fn is_closed(&self, number: u64) -> bool
        ensures { result ≡ nat_le number self.now.progress.closed }
    {
        number <= self.progress.closed
    }
}

fn one_more(n: u64) -> Result<u64, NoMemory>
    ensures { IfOk result (λ more. more ≡ n + 1) }
{
    match n.checked_add(1) {
        Some(more) => Ok(more),
        None => Err(NoMemory),
    }
}

/// The first call has the link as it is.
fn push_reopening(first: bool, effects: &mut Effects) -> Result<(), NoMemory>
    ensures { OnOk result (effects.new ≡ effects.old ++ Courses.effects (rules.reopening first)) }
{
    if first {
        return Ok(());
    }
    effects.push(Effect::Reopen)
}

/// Adds what these acts want done.
fn push_acts(alloc: Global, list: &[Act], effects: &mut Effects) -> Result<(), NoMemory>
    ensures { OnOk result (effects.new ≡ effects.old ++ act_effects list.now) }
{
    for act in list {
        push_act(alloc, act, effects)?;
    }
    Ok(())
}

fn push_act(alloc: Global, act: &Act, effects: &mut Effects) -> Result<(), NoMemory>
    ensures { OnOk result (effects.new ≡ effects.old ++ effects_of_act act.now) }
{
    match act {
        Act::Write(text) => effects.push(Effect::Write(Octets::copy_of(alloc, text.as_slice())?)),
        Act::Reopen => effects.push(Effect::Reopen),
        Act::Part(_) | Act::Done(_) | Act::Served | Act::Finished | Act::NoAnswer => Ok(()),
    }
}
