//! `FILE compact FILE2`: a store's open tickets in a new file.
use mj_base::{NoMemory, Sink};
use mj_compact_prog::compact;
use mj_disk::FileDisk;
use std::alloc::Global;
use std::os::unix::fs::FileExt;
use std::rt::Files;

/// The status for want of memory.
const NO_MEMORY: u8 = 4;

/// Whether the words are for `compact`.
pub fn is_compact(words: &Vec<String>) -> bool {
    match words.get(1) {
        Some(command) => command.as_str() == "compact",
        None => false,
    }
}

/// Runs `compact` over the files that the first word and the third name, neither of which is opened before the words are read.
/// The answer is the status that the program exits with.
pub fn run_compact<R: Files + Drop + Copy, K: Sink>(
    rt: R,
    alloc: Global,
    words: &Vec<String>,
    sink: &mut K,
) -> u8
where
    R::File: FileExt,
{
    let (Ok(old), Ok(new)) = (path_at(alloc, words, 0), path_at(alloc, words, 2)) else {
        return NO_MEMORY;
    };
    let mut old = FileDisk::new(rt, old);
    let mut new = FileDisk::new(rt, new);
    compact(alloc, words.as_slice(), &mut old, &mut new, sink)
}

/// The word at this place, or an empty one where there are fewer.
fn path_at(alloc: Global, words: &Vec<String>, place: usize) -> Result<String, NoMemory> {
    let word = match words.get(place) {
        Some(word) => word.as_str(),
        None => "",
    };
    Ok(String::from_str(alloc, word)?)
}
