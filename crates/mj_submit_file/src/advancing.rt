//! How far the notes of a file come.
ghost use Rattle.std.specs.Prelude.{◌≡◌, ◌≢◌, ◌+◌, MatchBool};
ghost use Rattle.mj_submit.specs.Notes;
ghost use Rattle.mj_submit.specs.Notes.{none_yet};

use mj_submit::{Note, Progress, Stage};

/// Nothing is done.
pub fn nothing_yet() -> Progress
    ensures { result ≡ none_yet }
{
    Progress {
        closed: 0,
        stage: Stage::Fresh,
    }
}

/// How far it is with this note, or None where the note isn't the next one.
pub fn with_note(progress: &Progress, note: &Note) -> Option<Progress>
    ensures { result ≡ Notes.with_note progress.now note.now }
{
    let closed = progress.closed;
    match (note, progress.stage) {
        (Note::Issued { line, id }, Stage::Fresh) if is_next(*line, closed) => Some(Progress {
            closed,
            stage: Stage::Ticket(*id),
        }),
        (Note::Given { line }, Stage::Ticket(id)) if is_next(*line, closed) => Some(Progress {
            closed,
            stage: Stage::Delivered(id),
        }),
        (Note::Closed { line }, Stage::Delivered(_)) if is_next(*line, closed) => Some(Progress {
            closed: *line,
            stage: Stage::Fresh,
        }),
        _ => None,
    }
}

/// Whether this is the number of the line behind so many closed ones.
fn is_next(line: u64, closed: u64) -> bool
    ensures { MatchBool result (line ≡ closed + 1) (line ≢ closed + 1) }
{
    line != 0 && line - 1 == closed
}
