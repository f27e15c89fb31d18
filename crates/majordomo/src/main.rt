//! The program: hands its words, the standard streams, and the disk, the link or the sockets that they name to the call that
//! they are for, and exits with its status.
#![tactic(auto)]

mod bridging;
mod compacting;
mod copying;
mod peering;
mod serving;

use bridging::{is_bridge, run_bridge};
use compacting::{is_compact, run_compact};
use copying::{is_copying, run_copying};
use mj_base::{NoMemory, Octets, StdSink, StdSource};
use mj_disk::{Disk, FileDisk, MemoryDisk};
use mj_host::broker_words;
use mj_prog::tool;
use peering::{is_peer, run_peer};
use serving::serve_words;
use std::fs::OpenOptions;
use std::io::ErrorKind;
use std::process::ExitCode;
use std::rt::Files;
use std::{env, io};

fn main(rt: HostRuntime) -> ExitCode {
    // What is opened first takes the place of a standard stream that is closed, which no file of a store may take.
    let _places = (held_place(&rt), held_place(&rt), held_place(&rt));
    let alloc = rt.alloc();
    let Ok(words) = program_words(&rt) else {
        return ExitCode::from(4);
    };
    if let Some(numbers) = broker_words(words.as_slice()) {
        let mut sink = StdSink::new(io::writer(&rt));
        let errors = rt.stderr();
        return ExitCode::from(serve_words(rt, alloc, &words, numbers, &mut sink, errors));
    }
    if is_peer(&words) {
        let mut source = StdSource::new(rt.reader());
        let mut sink = StdSink::new(io::writer(&rt));
        return ExitCode::from(run_peer(rt, alloc, &words, &mut source, &mut sink));
    }
    if is_bridge(&words) {
        let mut sink = StdSink::new(io::writer(&rt));
        return ExitCode::from(run_bridge(rt, alloc, &words, &mut sink));
    }
    if is_compact(&words) {
        let mut sink = StdSink::new(io::writer(&rt));
        return ExitCode::from(run_compact(&rt, alloc, &words, &mut sink));
    }
    if is_copying(&words) {
        let mut sink = StdSink::new(io::writer(&rt));
        return ExitCode::from(run_copying(rt, alloc, &words, &mut sink));
    }
    ExitCode::from(run_over_disk(&rt, &words))
}

/// Holds the lowest place of an open file that is free. What is written there fails.
fn held_place<R: Files>(rt: &R) -> Option<R::File> {
    OpenOptions::new().read(true).open(rt, "/dev/null").ok()
}

/// The words behind the program's name. Words that aren't UTF-8 are no words of the program, as an empty list is.
fn program_words(rt: &HostRuntime) -> io::Result<Vec<String>> {
    match env::args(rt) {
        Ok(args) => Ok(args.skip(1).collect(rt.alloc())?),
        Err(error) if error.kind() == ErrorKind::InvalidData => Ok(Vec::new(rt.alloc())),
        Err(error) => Err(error),
    }
}

/// Runs over the file that the first word names, which isn't opened before the words are read; without one, or where it is
/// `-`, over an empty disk in memory.
fn run_over_disk(rt: &HostRuntime, words: &Vec<String>) -> u8 {
    match words.first() {
        Some(place) if place.as_str() != "-" => run_over_file(rt, words, place.as_str()),
        _ => run_over_memory(rt, words),
    }
}

fn run_over_file(rt: &HostRuntime, words: &Vec<String>, place: &str) -> u8 {
    match String::from_str(rt.alloc(), place) {
        Ok(path) => run_tool(rt, words, &mut FileDisk::new(rt, path)),
        Err(_) => 4,
    }
}

fn run_over_memory(rt: &HostRuntime, words: &Vec<String>) -> u8 {
    let alloc = rt.alloc();
    match MemoryDisk::new(alloc, Octets::new(alloc), 0, Vec::new(alloc), None) {
        Ok(mut disk) => run_tool(rt, words, &mut disk),
        Err(NoMemory) => 4,
    }
}

fn run_tool<D: Disk>(rt: &HostRuntime, words: &Vec<String>, disk: &mut D) -> u8 {
    let mut source = StdSource::new(rt.reader());
    let mut sink = StdSink::new(io::writer(rt));
    tool(rt.alloc(), words, &mut source, disk, &mut sink)
}
