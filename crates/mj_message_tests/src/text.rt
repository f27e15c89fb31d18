//! Messages as text, each frame but the first behind a bar.
use mj_base::{Frames, NoMemory, Version};
use std::alloc::Global;

pub(crate) fn frames_of(alloc: Global, text: &str) -> Result<Frames, NoMemory> {
    let mut frames = Frames::new(alloc);
    for body in text.split('|') {
        frames.push(body.as_bytes())?;
    }
    Ok(frames)
}

pub(crate) fn are_same(frames: &Frames, others: &Frames) -> bool {
    for i in 0..others.len() {
        if frames.get(i) != others.get(i) {
            return false;
        }
    }
    frames.len() == others.len()
}

/// The version, and whether the message began with an empty frame.
pub(crate) fn form_of(version: Version, lead: bool) -> &'static str {
    match (version, lead) {
        (Version::One, true) => "0.1 led",
        (Version::One, false) => "0.1",
        (Version::Two, true) => "0.2 led",
        (Version::Two, false) => "0.2",
    }
}
