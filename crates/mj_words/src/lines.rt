//! Frames in printed lines.
ghost use Rattle.std.specs.Prelude.{◌≡◌, ◌∷◌, ◌++◌, IfOk, OnOk, string_bytes};
ghost use Rattle.mj_words.specs.Lines;
ghost use Rattle.mj_words.specs.Lines.{frame_word};

use mj_base::{Frames, NoMemory};
use std::alloc::Global;

/// A word, and each frame in hex behind a space; an empty one as `-`.
pub fn body_line(alloc: Global, word: &str, body: &Frames) -> Result<String, NoMemory>
    ensures { IfOk result (λ line. string_bytes line ≡ Lines.body_line word.now body.now) }
{
    let mut line = String::from_str(alloc, word)?;
    for i in 0..body.len() {
        if let Some(frame) = body.get(i) {
            push_frame(alloc, frame, &mut line)?;
        }
    }
    line.push_str("\n")?;
    Ok(line)
}

fn push_frame(alloc: Global, frame: &[u8], line: &mut String) -> Result<(), NoMemory>
    ensures { OnOk result (string_bytes line.new ≡ string_bytes line.old ++ (32 ∷ frame_word frame.now)) }
{
    line.push_str(" ")?;
    if frame.is_empty() {
        line.push_str("-")?;
        return Ok(());
    }
    let digits = hex::encode(alloc, frame)?;
    line.push_str(digits.as_str())?;
    Ok(())
}
