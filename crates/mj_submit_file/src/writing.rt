//! A note as the payload of a record.
ghost use Rattle.std.specs.Prelude.{◌≡◌, ◌∷◌, ◌++◌, Some, IfOk, OnOk};
ghost use Rattle.mj_journal.specs.FileText.{IsPayload};
ghost use Rattle.mj_submit.specs.Notes.{IsNote, line_octets, note_in, payload_of};

use mj_base::{NoMemory, Octets};
use mj_submit::Note;
use std::alloc::Global;

/// The payload of this note.
pub fn note_payload(alloc: Global, note: &Note) -> Result<Octets, NoMemory>
    ensures spells { IfOk result (λ octets. octets ≡ payload_of note.now) }
    ensures sized { IfOk result (λ octets. IsPayload octets) }
    ensures note { IfOk result (λ octets. IsNote note.now octets) }
    ensures read { IfOk result (λ octets. note_in octets ≡ Some note.now) }
{
    spelled(alloc, note)
}

fn spelled(alloc: Global, note: &Note) -> Result<Octets, NoMemory>
    ensures { IfOk result (λ octets. IsNote note.now octets) }
{
    let mut octets = Octets::new(alloc);
    match note {
        Note::Issued { line, id } => {
            push_line(b'I', *line, &mut octets)?;
            octets.push_all(&id.octets())?;
        }
        Note::Given { line } => push_line(b'G', *line, &mut octets)?,
        Note::Closed { line } => push_line(b'D', *line, &mut octets)?,
    }
    Ok(octets)
}

#[tactic(auto, unfolding(mj_submit::specs::Notes::line_octets))]
fn push_line(kind: u8, line: u64, octets: &mut Octets) -> Result<(), NoMemory>
    ensures { OnOk result (octets.new ≡ octets.old ++ kind ∷ line_octets line) }
{
    octets.push_all(&[kind])?;
    octets.push_all(&line.to_be_bytes())
}
