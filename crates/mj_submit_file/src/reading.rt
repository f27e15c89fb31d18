//! The bytes of a payload to the note that they are.
ghost use Rattle.std.specs.Prelude.{◌≡◌, IfSome, IfNone, length};
ghost use Rattle.mj_ids.specs.Ids.{id_in};
ghost use Rattle.mj_submit.specs.Notes;
ghost use Rattle.mj_submit.specs.Notes.{IsNote, closed_in, given_in, issued_in, note_in};
ghost use Rattle.mj_submit.specs.declared.note.Note.{Note as ANote};

use mj_ids::TicketId;
use mj_submit::Note;

/// The note that these bytes are, or None where they are none.
pub fn read_note(payload: &[u8]) -> Option<Note>
    ensures exact { result ≡ note_in payload.now }
    ensures found { IfSome result (λ note. IsNote note payload.now) }
    ensures only { IfNone result ((note : ANote) → IsNote note payload.now → ⊥) }
{
    note_of(payload)
}

fn note_of(payload: &[u8]) -> Option<Note>
    ensures { result ≡ note_in payload.now }
{
    let (kind, rest) = payload.split_first()?;
    by_kind(*kind, rest)
}

fn by_kind(kind: u8, rest: &[u8]) -> Option<Note>
    ensures { result ≡ Notes.by_kind kind rest.now }
{
    if kind == b'I' {
        issued(rest)
    } else if kind == b'G' {
        given(rest)
    } else if kind == b'D' {
        closed(rest)
    } else {
        None
    }
}

fn issued(rest: &[u8]) -> Option<Note>
    ensures { result ≡ issued_in rest.now }
{
    if rest.len() != 24 {
        return None;
    }
    let (line, id) = rest.split_first_chunk::<8>()?;
    let id = id_of(id)?;
    Some(Note::Issued {
        line: u64::from_be_bytes(*line),
        id,
    })
}

/// Sixteen bytes as an id.
fn id_of(octets: &[u8]) -> Option<TicketId>
    requires { length octets.now ≡ 16 }
    ensures { result ≡ id_in octets.now }
{
    TicketId::from_octets(octets.first_chunk::<16>()?)
}

fn given(rest: &[u8]) -> Option<Note>
    ensures { result ≡ given_in rest.now }
{
    if rest.len() != 8 {
        return None;
    }
    let line = rest.first_chunk::<8>()?;
    Some(Note::Given {
        line: u64::from_be_bytes(*line),
    })
}

fn closed(rest: &[u8]) -> Option<Note>
    ensures { result ≡ closed_in rest.now }
{
    if rest.len() != 8 {
        return None;
    }
    let line = rest.first_chunk::<8>()?;
    Some(Note::Closed {
        line: u64::from_be_bytes(*line),
    })
}
