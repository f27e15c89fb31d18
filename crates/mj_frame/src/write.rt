ghost use Rattle.std.specs.Prelude.{◌≡◌, ◌<◌, ◌++◌, IsTrue, OnOk, OnErr, length};
ghost use Rattle.mj_frame.specs.FrameSpelling.{flags, canonical_head, canonical, message_octets, Grows};

use super::Head;
use mj_base::{Frames, NoMemory, Octets};

/// Appends a frame in its canonical spelling: a size of one byte where that is enough. Without memory nothing
/// is appended.
pub fn write_frame(more: bool, command: bool, body: &[u8], out: &mut Octets) -> Result<(), NoMemory>
    requires { ¬ (IsTrue more × IsTrue command) }
    ensures ok { OnOk result (out.new ≡ out.old ++ canonical more command body.now) }
    ensures err { OnErr result (out.new ≡ out.old) }
{
    let start = out.len();
    let written = append_frame(more, command, body, out);
    if written.is_err() {
        out.truncate(start);
    }
    written
}

/// Appends a message of at least one frame: more follows each frame but the last. Without memory nothing is
/// appended.
pub fn write_message(message: &Frames, out: &mut Octets) -> Result<(), NoMemory>
    requires { 0 < length message.now }
    ensures ok { OnOk result (out.new ≡ out.old ++ message_octets message.now) }
    ensures err { OnErr result (out.new ≡ out.old) }
{
    let start = out.len();
    let written = append_message(message, out);
    if written.is_err() {
        out.truncate(start);
    }
    written
}

fn append_frame(more: bool, command: bool, body: &[u8], out: &mut Octets) -> Result<(), NoMemory>
    ensures ok { OnOk result (out.new ≡ out.old ++ canonical more command body.now) }
    ensures err { OnErr result (Grows out.old out.new) }
{
    let size = body.len() as u64;
    append_head(
        Head {
            more,
            command,
            size,
        },
        out,
    )?;
    out.push_all(body)
}

fn append_message(message: &Frames, out: &mut Octets) -> Result<(), NoMemory>
    requires { 0 < length message.now }
    ensures ok { OnOk result (out.new ≡ out.old ++ message_octets message.now) }
    ensures err { OnErr result (Grows out.old out.new) }
{
    let last = message.len() - 1;
    for i in 0..message.len() {
        if let Some(frame) = message.get(i) {
            append_frame(i < last, false, frame, out)?;
        }
    }
    Ok(())
}

fn append_head(head: Head, out: &mut Octets) -> Result<(), NoMemory>
    ensures ok { OnOk result (out.new ≡ out.old ++ canonical_head head) }
    ensures err { OnErr result (Grows out.old out.new) }
{
    if head.size < 256 {
        out.push_all(&[flags_byte(head.more, false, head.command), head.size as u8])
    } else {
        out.push_all(&[flags_byte(head.more, true, head.command)])?;
        out.push_all(&head.size.to_be_bytes())
    }
}

fn flags_byte(more: bool, long: bool, command: bool) -> u8
    ensures { result ≡ flags more long command }
{
    u8::from(more) + (u8::from(long) * 2 + u8::from(command) * 4)
}
