//! The run of a client over a link.
ghost use Rattle.std.specs.Prelude.{◌≡◌, ◌≤◌, ◌⊎◌, ◌∷◌, [], true, false, is_some, ℕ, List, Option, OnOk, OnErr, IfOk, IfErr};
ghost use Rattle.mj_base.specs.declared.link.LinkEvent.{LinkEvent as AnEvent};
ghost use Rattle.mj_peer.specs.ClientEndRules.{Asked, Client, Met};
ghost use Rattle.mj_peer.specs.ClientStands.{Stands};
ghost use Rattle.mj_peering.specs.ClientRun.{BrokeOff, Halted, IsCut, IsEnd, Played, Turned};
ghost use Rattle.mj_peering.specs.Performing.{AreLater, Cause, PerformCause, Places, RunCause, counts, places};
ghost use Rattle.mj_peering.specs.Feeding.{ahead};

use super::feed::Feed;
use super::performing::perform_all;
use super::reading::read_event;
use super::stop::Stop;
use mj_base::{Frames, Link, Octets, Sink, Source};
use mj_peer::ClientEnd;
use std::alloc::Global;
use std::sync::Wait;

/// Asks and meets in turn, until the input is at its end and answered, or a request is given up. Answers how many
/// requests were asked, which stops at 2^64 - 1.
pub fn run_client<R: Wait, L: Link, S: Source, K: Sink>(
    rt: &R,
    alloc: Global,
    end: &mut ClientEnd,
    feed: &mut Feed,
    link: &mut L,
    src: &mut S,
    out: &mut K,
) -> Result<u64, Stop>
    requires { end.old.spent ≡ false }
    ensures ran { IfOk result (λ n. (first : Client) → Stands end.old.session first → Played first (places (L.told link.old) (K.written out.old)) (places (L.told link.new) (K.written out.new)) (ahead feed.old (S.left src.old)) (ahead feed.new (S.left src.new)) end.new.session n) }
    ensures over { OnOk result (IsEnd end.new.session (ahead feed.new (S.left src.new))) }
    ensures halted { IfErr result (λ stop. (first : Client) → Stands end.old.session first → Halted stop first (places (L.told link.old) (K.written out.old)) (places (L.told link.new) (K.written out.new)) (ahead feed.old (S.left src.old))) }
    ensures cause { IfErr result (λ stop. RunCause stop (counts (L.read_faults link.old) (L.write_faults link.old) (K.faults out.old) (K.wants out.old)) (counts (L.read_faults link.new) (L.write_faults link.new) (K.faults out.new) (K.wants out.new)) (S.faults src.old) (S.faults src.new)) }
    ensures later { AreLater (counts (L.read_faults link.old) (L.write_faults link.old) (K.faults out.old) (K.wants out.old)) (counts (L.read_faults link.new) (L.write_faults link.new) (K.faults out.new) (K.wants out.new)) }
    ensures input_later { S.faults src.old ≤ S.faults src.new }
{
    let mut asked: u64 = 0;
    for _ in rt.forever() {
        if !step(rt, alloc, end, feed, &mut asked, link, src, out)? {
            return Ok(asked);
        }
    }
    unreachable!()
}

/// One call of the end; false where there is none any more.
fn step<R: Wait, L: Link, S: Source, K: Sink>(
    rt: &R,
    alloc: Global,
    end: &mut ClientEnd,
    feed: &mut Feed,
    asked: &mut u64,
    link: &mut L,
    src: &mut S,
    out: &mut K,
) -> Result<bool, Stop>
    requires { end.old.spent ≡ false }
    ensures goes { OnOk result ((first : Client) (start : Places) (input : Option (List (List ℕ))) → Played first start (places (L.told link.old) (K.written out.old)) input (ahead feed.old (S.left src.old)) end.old.session asked.old → Played first start (places (L.told link.new) (K.written out.new)) input (ahead feed.new (S.left src.new)) end.new.session asked.new) }
    ensures over { IfOk result (λ more. more ≡ false → IsEnd end.new.session (ahead feed.new (S.left src.new))) }
    ensures halted { IfErr result (λ stop. (first : Client) (start : Places) (input : Option (List (List ℕ))) → Played first start (places (L.told link.old) (K.written out.old)) input (ahead feed.old (S.left src.old)) end.old.session asked.old → Halted stop first start (places (L.told link.new) (K.written out.new)) input) }
    ensures cause { IfErr result (λ stop. RunCause stop (counts (L.read_faults link.old) (L.write_faults link.old) (K.faults out.old) (K.wants out.old)) (counts (L.read_faults link.new) (L.write_faults link.new) (K.faults out.new) (K.wants out.new)) (S.faults src.old) (S.faults src.new)) }
    ensures later { AreLater (counts (L.read_faults link.old) (L.write_faults link.old) (K.faults out.old) (K.wants out.old)) (counts (L.read_faults link.new) (L.write_faults link.new) (K.faults out.new) (K.wants out.new)) }
    ensures input_later { S.faults src.old ≤ S.faults src.new }
    ensures ready { OnOk result (end.new.spent ≡ false) }
{
    if end.is_over() {
        return Ok(false);
    }
    if end.is_asking() {
        meet(alloc, end, link, out)?;
        return Ok(true);
    }
    let Some(text) = feed.next_request(rt, alloc, src)? else {
        return Ok(false);
    };
    *asked = asked.saturating_add(1);
    ask(alloc, end, &text, link, out)?;
    Ok(true)
}

/// Asks this request, a body of one frame.
fn ask<L: Link, K: Sink>(
    alloc: Global,
    end: &mut ClientEnd,
    text: &Octets,
    link: &mut L,
    out: &mut K,
) -> Result<(), Stop>
    requires ready { end.old.spent ≡ false }
    requires closed { is_some end.old.session.talk.request ≡ false }
    ensures done { OnOk result (Turned end.old.session end.new.session (places (L.told link.old) (K.written out.old)) (places (L.told link.new) (K.written out.new)) (Asked (text.now ∷ []))) }
    ensures broken { OnErr result (IsCut end.old.session (places (L.told link.old) (K.written out.old)) (places (L.told link.new) (K.written out.new)) (Asked (text.now ∷ []))) }
    ensures cause { IfErr result (λ stop. PerformCause stop (counts (L.read_faults link.old) (L.write_faults link.old) (K.faults out.old) (K.wants out.old)) (counts (L.read_faults link.new) (L.write_faults link.new) (K.faults out.new) (K.wants out.new))) }
    ensures later { AreLater (counts (L.read_faults link.old) (L.write_faults link.old) (K.faults out.old) (K.wants out.old)) (counts (L.read_faults link.new) (L.write_faults link.new) (K.faults out.new) (K.wants out.new)) }
    ensures ready { OnOk result (end.new.spent ≡ false) }
{
    let mut body = Frames::new(alloc);
    body.push(text.as_slice())?;
    let acts = end.ask(alloc, &body)?;
    perform_all(alloc, &acts, link, out)
}

/// Meets what the link gives next.
fn meet<L: Link, K: Sink>(
    alloc: Global,
    end: &mut ClientEnd,
    link: &mut L,
    out: &mut K,
) -> Result<(), Stop>
    requires ready { end.old.spent ≡ false }
    ensures done { OnOk result ((event : AnEvent) × Turned end.old.session end.new.session (places (L.told link.old) (K.written out.old)) (places (L.told link.new) (K.written out.new)) (Met event)) }
    ensures broken { IfErr result (λ stop. BrokeOff stop end.old.session (places (L.told link.old) (K.written out.old)) (places (L.told link.new) (K.written out.new))) }
    ensures cause { IfErr result (λ stop. Cause stop (counts (L.read_faults link.old) (L.write_faults link.old) (K.faults out.old) (K.wants out.old)) (counts (L.read_faults link.new) (L.write_faults link.new) (K.faults out.new) (K.wants out.new))) }
    ensures later { AreLater (counts (L.read_faults link.old) (L.write_faults link.old) (K.faults out.old) (K.wants out.old)) (counts (L.read_faults link.new) (L.write_faults link.new) (K.faults out.new) (K.wants out.new)) }
    ensures ready { OnOk result (end.new.spent ≡ false) }
{
    let event = read_event(alloc, link)?;
    let acts = end.step(alloc, event)?;
    perform_all(alloc, &acts, link, out)
}
