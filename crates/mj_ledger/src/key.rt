//! Lists of byte strings as one byte string.
ghost use Rattle.std.specs.Prelude.{◌≡◌, ◌++◌, IfOk, OnOk};
ghost use Rattle.mj_ledger.specs.Keys;
ghost use Rattle.mj_ledger.specs.Keys.{spelled, spelled_frame};

use mj_base::{Frames, NoMemory};
use std::alloc::Global;

/// Under what the replies to a client of one kind are counted.
pub(crate) fn reply_key(
    alloc: Global,
    who: &[u8],
    service: &[u8],
    last: bool,
    body: &Frames,
) -> Result<Vec<u8>, NoMemory>
    ensures { IfOk result (λ key. key.items ≡ Keys.reply_key who.now service.now last body.now) }
{
    let mut key = Vec::new(alloc);
    spell(who, &mut key)?;
    spell(service, &mut key)?;
    spell(if last { b"\x01" } else { b"" }, &mut key)?;
    spell_all(body, &mut key)?;
    Ok(key)
}

fn spell_all(frames: &Frames, key: &mut Vec<u8>) -> Result<(), NoMemory>
    ensures { OnOk result (key.new.items ≡ key.old.items ++ spelled frames.now) }
{
    for i in 0..frames.len() {
        if let Some(frame) = frames.get(i) {
            spell(frame, key)?;
        }
    }
    Ok(())
}

fn spell(frame: &[u8], key: &mut Vec<u8>) -> Result<(), NoMemory>
    ensures { OnOk result (key.new.items ≡ key.old.items ++ spelled_frame frame.now) }
{
    for octet in frame {
        key.push(1)?;
        key.push(*octet)?;
    }
    key.push(0)?;
    Ok(())
}
