ghost use Rattle.std.specs.Prelude.{◌≡◌};
ghost use Rattle.std.specs.List.{position};
ghost use Rattle.mj_prog.specs.Script.{is_newline};
ghost use Rattle.mj_prog.specs.ReadSoFar.{IsFront, HasNoNewline};

use super::line::LINE_BYTES;
use super::progress::Progress;

/// What stands at the front of the pending bytes.
#[derive(Clone, Copy)]
pub enum Front {
    /// A line of so many bytes, and its newline.
    Line(usize),
    /// The script's last line, which has no newline.
    Last,
    /// More bytes than a line may have.
    TooLong,
    /// Not a whole line: more has to be read.
    Part,
    /// Nothing, and nothing more will come.
    Over,
}

/// What stands at the front of the pending bytes.
pub fn find_front(progress: &Progress) -> Front
    ensures { IsFront progress.now.pending.items progress.now.room result }
{
    let pending = progress.pending.as_slice();
    match find_newline(pending) {
        Some(end) => Front::Line(end),
        None => front_without_newline(pending, progress.room),
    }
}

/// The place of the first newline.
fn find_newline(pending: &[u8]) -> Option<usize>
    ensures { result ≡ position is_newline pending.now }
{
    pending.iter().position(|c| *c == b'\n')
}

fn front_without_newline(pending: &[u8], room: u64) -> Front
    requires { HasNoNewline pending.now }
    ensures { IsFront pending.now room result }
{
    if pending.len() > LINE_BYTES {
        Front::TooLong
    } else if room > 0 {
        Front::Part
    } else if !pending.is_empty() {
        Front::Last
    } else {
        Front::Over
    }
}
