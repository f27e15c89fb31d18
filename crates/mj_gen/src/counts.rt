//! What is counted of a run.
ghost use Rattle.std.specs.Prelude.{◌≡◌, ◌∷◌, ◌++◌, [], ℕ, List, length, IfOk, IfSome, string_bytes};
ghost use Rattle.mj_base.specs.declared.event.Event.{Event as AnyEvent};
ghost use Rattle.mj_base.specs.declared.event.Out.{Out as AnyOut};
ghost use Rattle.mj_base.specs.declared.event.Out.TheVariants as outs;
ghost use Rattle.mj_base.specs.declared.reason.Reason.{Reason as AnyReason};
ghost use Rattle.mj_gen.specs.Counting;
ghost use Rattle.mj_gen.specs.Counting.{AreCountedIf};

use mj_base::NoMemory;
use std::alloc::Global;

/// What a run was, in numbers.
#[derive(Clone, Copy, Debug, PartialEq, Eq)]
pub struct Counts {
    /// Events that were taken.
    pub events: u64,
    /// Pieces that were given.
    pub pieces: u64,
    /// The bytes of all pieces.
    pub octets: u64,
    /// Connections that were ended.
    pub ends: u64,
}

/// Nothing was taken and given.
pub fn no_counts() -> Counts
    ensures { AreCountedIf (Some result) [] [] }
{
    Counts {
        events: 0,
        pieces: 0,
        octets: 0,
        ends: 0,
    }
}

/// One event more. None where a number has grown too large to be told.
#[tactic(auto, using(crate::proofs::Tallies::one_event))]
pub fn with_event(counts: Option<Counts>) -> Option<Counts>
    ensures { (taken : List AnyEvent) (given : List AnyOut) (event : AnyEvent) → AreCountedIf counts taken given → AreCountedIf result (taken ++ event ∷ []) given }
{
    let counts = counts?;
    let events = counts.events.checked_add(1)?;
    Some(Counts {
        events,
        pieces: counts.pieces,
        octets: counts.octets,
        ends: counts.ends,
    })
}

/// One piece more, of so many bytes.
pub fn with_piece(counts: Option<Counts>, size: u64) -> Option<Counts>
    ensures { (taken : List AnyEvent) (given : List AnyOut) (lane : ℕ) (piece : List ℕ) → size ≡ length piece → AreCountedIf counts taken given → AreCountedIf result taken (given ++ outs.Piece lane piece ∷ []) }
{
    match counts {
        Some(counts) => plus_piece(counts, size),
        None => None,
    }
}

fn plus_piece(counts: Counts, size: u64) -> Option<Counts>
    ensures { IfSome result (λ more. more ≡ Counting.plus_piece size counts) }
{
    let pieces = counts.pieces.checked_add(1)?;
    let octets = counts.octets.checked_add(size)?;
    Some(Counts {
        events: counts.events,
        pieces,
        octets,
        ends: counts.ends,
    })
}

/// One end more.
pub fn with_end(counts: Option<Counts>) -> Option<Counts>
    ensures { (taken : List AnyEvent) (given : List AnyOut) (lane : ℕ) (reason : AnyReason) (at : ℕ) → AreCountedIf counts taken given → AreCountedIf result taken (given ++ outs.End lane reason at ∷ []) }
{
    match counts {
        Some(counts) => plus_end(counts),
        None => None,
    }
}

fn plus_end(counts: Counts) -> Option<Counts>
    ensures { IfSome result (λ more. more ≡ Counting.plus_end counts) }
{
    let ends = counts.ends.checked_add(1)?;
    Some(Counts {
        events: counts.events,
        pieces: counts.pieces,
        octets: counts.octets,
        ends,
    })
}

/// The five lines that tell them.
pub fn text_of(alloc: Global, counts: Counts) -> Result<String, NoMemory>
    ensures { IfOk result (λ text. string_bytes text ≡ Counting.text_of counts.events counts.pieces counts.octets counts.ends) }
{
    let Counts {
        events,
        pieces,
        octets,
        ends,
    } = counts;
    Ok(format!(in alloc;
        "events {events}\npieces {pieces}\noctets {octets}\nends {ends}\ndone {events}\n"
    )?)
}
