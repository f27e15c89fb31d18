ghost use Rattle.std.specs.Prelude.{◌≡◌, ◌&&◌, ◌||◌, ◌<◌, [], length, slice_index_or};
ghost use Rattle.std.specs.Str.{bytes_eq};
ghost use Rattle.mj_ledger.specs.TranscriptLaws.{same_body};

use mj_base::Frames;

pub(crate) fn is_same(a: &[u8], b: &[u8]) -> bool
    ensures { result ≡ bytes_eq a.now b.now }
{
    a == b
}

/// Whether two bodies have the same frames.
pub(crate) fn is_same_body(a: &Frames, b: &Frames) -> bool
    ensures { result ≡ same_body a.now b.now }
{
    if a.len() != b.len() {
        return false;
    }
    for i in 0..a.len() {
        if !is_same_frame(a, b, i) {
            return false;
        }
    }
    true
}

pub(crate) fn both(one: bool, other: bool) -> bool
    ensures { result ≡ (one && other) }
{
    one && other
}

pub(crate) fn either(one: bool, other: bool) -> bool
    ensures { result ≡ (one || other) }
{
    one || other
}

fn is_same_frame(a: &Frames, b: &Frames, i: usize) -> bool
    requires { (i < length a.now) × (i < length b.now) }
    ensures { result ≡ bytes_eq (slice_index_or a.now i []) (slice_index_or b.now i []) }
{
    match (a.get(i), b.get(i)) {
        (Some(one), Some(other)) => is_same(one, other),
        _ => false,
    }
}
