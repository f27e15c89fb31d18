//! The audit of a transcript.
ghost use Rattle.std.specs.Prelude.{◌≡◌, ◌++◌, ◌∷◌, [], not, true, false, List, IfOk, OnErr};
ghost use Rattle.mj_audit.specs.Following;
ghost use Rattle.mj_audit.specs.Following.{Follows, IsStep};
ghost use Rattle.mj_audit.specs.Judging;
ghost use Rattle.mj_audit.specs.Judging.{StandsFor};
ghost use Rattle.mj_ledger.specs.TranscriptLaws.{nobody_is_kept};
ghost use Rattle.mj_transcript.specs.LineBounds.{IsOnLanes};
ghost use Rattle.mj_transcript.specs.Text.{line_of};
ghost use Rattle.mj_transcript.specs.Verdicts.{verdict_after, verdict_at};
ghost use Rattle.mj_transcript.specs.declared.line.Line.{Line as Lined};
ghost use Rattle.mj_transcript.specs.declared.verdict.Verdict.TheVariants.{Held};

use super::Lane;
use super::slots::no_lanes;
use super::steps::{close, lapse, open, receive, send};
use mj_base::NoMemory;
use mj_ledger::Tables;
use mj_transcript::{Law, Line, Verdict, read_line};
use std::alloc::Global;

/// Judges a transcript, line by line. It goes on as long as each verdict is `Held`.
#[derive(Drop)]
pub struct Audit {
    alloc: Global,
    lanes: Vec<Option<Lane>>,
    tables: Tables,
    over: bool,
    spent: bool,
}

impl Audit {
    /// An audit before the first line.
    pub fn new(alloc: Global) -> Result<Audit, NoMemory>
        ensures stands { IfOk result (λ audit. StandsFor audit []) }
        ensures ready { IfOk result (λ audit. (audit.over ≡ false) × (audit.spent ≡ false)) }
    {
        Ok(Audit {
            alloc,
            lanes: no_lanes(alloc)?,
            tables: Tables::new(alloc),
            over: false,
            spent: false,
        })
    }

    /// Whether a verdict other than `Held` has come; then the audit takes no further line.
    pub fn is_over(&self) -> bool
        ensures { result ≡ self.now.over }
    {
        self.over
    }

    /// Whether memory ran out in a line; then the audit takes no further line.
    pub fn is_spent(&self) -> bool
        ensures { result ≡ self.now.spent }
    {
        self.spent
    }

    /// Takes the next line, without its newline, and gives the verdict on all lines so far.
    pub fn line(&mut self, text: &[u8]) -> Result<Verdict, NoMemory>
        requires ready { (self.old.over ≡ false) × (self.old.spent ≡ false) }
        ensures verdict { IfOk result (λ verdict. (lines : List Lined) → StandsFor self.old lines → verdict ≡ verdict_at lines (line_of text.now)) }
        ensures stands { IfOk result (λ verdict. verdict ≡ Held → (lines : List Lined) → StandsFor self.old lines → StandsFor self.new (lines ++ line_of text.now ∷ [])) }
        ensures over { IfOk result (λ verdict. self.new.over ≡ not (Judging.is_held verdict)) }
        ensures ready { IfOk result (λ verdict. self.new.spent ≡ false) }
        ensures spent { OnErr result (self.new.spent ≡ true) }
    {
        self.spent = true;
        let line = read_line(self.alloc, text)?;
        let verdict = take(&mut self.lanes, &mut self.tables, self.alloc, line)?;
        self.over = !is_held(verdict);
        self.spent = false;
        Ok(verdict)
    }

    /// The verdict behind the last line.
    pub fn finish(&mut self) -> Verdict
        requires ready { (self.old.over ≡ false) × (self.old.spent ≡ false) }
        ensures { (lines : List Lined) → StandsFor self.old lines → result ≡ verdict_after lines }
    {
        self.over = true;
        if self.tables.is_clear() {
            Verdict::Held
        } else {
            Verdict::Broken(Law::Waiting)
        }
    }
}

fn is_held(verdict: Verdict) -> bool
    ensures { result ≡ Judging.is_held verdict }
{
    match verdict {
        Verdict::Held => true,
        _ => false,
    }
}

/// Takes one line.
fn take(
    lanes: &mut Vec<Option<Lane>>,
    tables: &mut Tables,
    alloc: Global,
    line: Line,
) -> Result<Verdict, NoMemory>
    requires { IsOnLanes line }
    ensures { IfOk result (IsStep lanes.old.items tables.old lanes.new.items tables.new line) }
{
    match line {
        Line::Open(lane, address) => open(lanes, tables, alloc, lane, address),
        Line::In(lane, octets) => receive(lanes, tables, alloc, lane, octets.as_slice()),
        Line::Out(lane, octets) => send(lanes, tables, alloc, lane, octets.as_slice()),
        Line::Close(lane) => Ok(close(lanes, tables, lane)),
        Line::Lapse(lane) => Ok(lapse(lanes, tables, lane)),
        Line::Silent => Ok(Verdict::Held),
        Line::Unlawful => Ok(Verdict::Unlawful),
    }
}
