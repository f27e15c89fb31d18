ghost use Rattle.std.specs.Prelude.{◌≡◌, ◌≤◌, drop, MatchOption, ◌++◌, OnOk};
ghost use Rattle.std.specs.Str.{bytes_eq};
ghost use Rattle.mj_opening.specs.Opening;
ghost use Rattle.mj_opening.specs.Opening.{opening_of, opening_frames, word_of};

use super::Party;
use mj_base::{Frames, NoMemory, Version};

/// What a message began with, and the place of the frame behind that.
#[derive(Drop)]
pub struct Beginning {
    pub version: Version,
    pub lead: bool,
    pub next: usize,
}

/// How this message begins, or None where it begins otherwise.
pub fn read_opening(party: Party, message: &Frames) -> Option<Beginning>
    ensures { MatchOption result (opening_of party message.now ≡ None) (λ o. (o.next ≤ 2) × (opening_of party message.now ≡ Some (record { version = o.version; lead = o.lead; rest = drop o.next message.now }))) }
{
    let first = message.get(0)?;
    if is_same(first, word(party, Version::Two)) {
        return Some(Beginning {
            version: Version::Two,
            lead: false,
            next: 1,
        });
    }
    if !first.is_empty() {
        return None;
    }
    let version = version_of(party, message.get(1)?)?;
    Some(Beginning {
        version,
        lead: true,
        next: 2,
    })
}

fn version_of(party: Party, frame: &[u8]) -> Option<Version>
    ensures { result ≡ Opening.version_of party frame.now }
{
    if is_same(frame, word(party, Version::One)) {
        Some(Version::One)
    } else if is_same(frame, word(party, Version::Two)) {
        Some(Version::Two)
    } else {
        None
    }
}

/// The word of a version.
fn word(party: Party, version: Version) -> &'static [u8]
    ensures { result.now ≡ word_of party version }
{
    match (party, version) {
        (Party::Clients, Version::One) => b"MDPC01",
        (Party::Clients, Version::Two) => b"MDPC02",
        (Party::Workers, Version::One) => b"MDPW01",
        (Party::Workers, Version::Two) => b"MDPW02",
    }
}

/// Appends the frames that a message begins with. Without memory a front of them may be appended.
pub fn push_opening(
    party: Party,
    version: Version,
    lead: bool,
    out: &mut Frames,
) -> Result<(), NoMemory>
    ensures { OnOk result (out.new ≡ out.old ++ opening_frames party version lead) }
{
    if lead {
        out.push(b"")?;
    }
    out.push(word(party, version))
}

/// Whether two frames are the same.
pub fn is_same(frame: &[u8], other: &[u8]) -> bool
    ensures { result ≡ bytes_eq frame.now other.now }
{
    frame == other
}
