ghost use Rattle.std.specs.Prelude.{◌≡◌, ◌≤◌, [], IfSome, map, string_bytes, codes, replicate};
ghost use Rattle.mj_prog.specs.Words;
ghost use Rattle.mj_prog.specs.Words.{IsLoad, command_at, command_in, dashed_tool, gen_in, load_for, load_with, options_for, options_of, replay_in, seed_of, tickets_in, tool_in};
ghost use Rattle.mj_prog.specs.FoundValue.{IsFound, found_after};
ghost use Rattle.mj_words.specs.Options.{number_between, once_or, values_of};

use hex::FromHex;
use mj_words::{are_options, read_number, read_option};

/// A load has at most so many requests.
const MOST_REQUESTS: u64 = 60_000;

/// The options of a replay.
#[derive(Clone, Copy)]
pub struct Options {
    /// Whether tickets are kept, in the file that the disk is.
    pub stored: bool,
    /// Lanes that a script may name, 1 to 64.
    pub lanes: u32,
    /// What ticket ids are made from. Nothing uses it without a store.
    pub seed: [u8; 32],
}

/// A load that is made by rule.
#[derive(Clone, Copy)]
pub struct Load {
    /// Whether tickets are kept, in the file that the disk is.
    pub stored: bool,
    /// Requests, 1 to 60,000.
    pub requests: u64,
}

/// What the words ask for that needs no broker.
#[derive(Clone, Copy)]
pub enum Tool {
    /// The commands are named.
    Help,
    /// What a stream says is shown.
    Show,
    /// A transcript is checked.
    Audit,
}

/// What the words ask for that is done with the broker or its store.
#[derive(Clone, Copy)]
pub enum Command {
    /// A script's events are run through the broker.
    Replay(Options),
    /// The open tickets of a file are listed.
    Tickets,
    /// A load of requests is run through the broker.
    Gen(Load),
}

/// What the search for the value of an option gives.
#[derive(Clone, Copy)]
enum Found {
    /// The option isn't given.
    Nowhere,
    /// It stands at this place among the words, from 0.
    At(usize),
    /// The option is given more than once.
    Twice,
}

/// The tool that the words ask for: `help` alone, `- show` or `- audit`.
pub fn read_tool(words: &[String]) -> Option<Tool>
    ensures { result ≡ tool_in (map string_bytes words.now) }
{
    match words {
        [word] if word.as_str() == "help" => Some(Tool::Help),
        [place, word] if place.as_str() == "-" => read_dashed(word.as_str()),
        _ => None,
    }
}

/// The tool that this word asks for behind `-`.
fn read_dashed(word: &str) -> Option<Tool>
    ensures { result ≡ dashed_tool word.now }
{
    if word == "show" {
        Some(Tool::Show)
    } else if word == "audit" {
        Some(Tool::Audit)
    } else {
        None
    }
}

/// What the words ask for of the broker or its store; None where they ask for nothing of it. The words are those behind the
/// program's name.
pub fn read_words(words: &[String]) -> Option<Command>
    ensures exact { result ≡ command_in (map string_bytes words.now) }
    ensures few { IfSome (options_for result) (λ options. options.lanes ≤ 64) }
    ensures some { IfSome (load_for result) IsLoad }
{
    match words {
        [place, command, more @ ..] => read_command(place.as_str(), command.as_str(), more),
        _ => None,
    }
}

fn read_command(place: &str, command: &str, more: &[String]) -> Option<Command>
    ensures exact { result ≡ command_at place.now command.now (map string_bytes more.now) }
    ensures few { IfSome (options_for result) (λ options. options.lanes ≤ 64) }
    ensures some { IfSome (load_for result) IsLoad }
{
    if command == "replay" {
        read_replay(place, more)
    } else if command == "tickets" {
        read_tickets(place, more)
    } else if command == "gen" {
        read_gen(place, more)
    } else {
        None
    }
}

fn read_tickets(file: &str, more: &[String]) -> Option<Command>
    ensures exact { result ≡ tickets_in file.now (map string_bytes more.now) }
    ensures few { IfSome (options_for result) (λ options. options.lanes ≤ 64) }
    ensures some { IfSome (load_for result) IsLoad }
{
    match more {
        [] if is_file(file) => Some(Command::Tickets),
        _ => None,
    }
}

fn read_gen(place: &str, more: &[String]) -> Option<Command>
    ensures exact { result ≡ gen_in place.now (map string_bytes more.now) }
    ensures few { IfSome (options_for result) (λ options. options.lanes ≤ 64) }
    ensures some { IfSome (load_for result) IsLoad }
{
    match more {
        [number] if is_place(place) => read_load(is_file(place), number.as_bytes()),
        _ => None,
    }
}

/// A load of so many requests, 1 to 60,000.
fn read_load(stored: bool, number: &[u8]) -> Option<Command>
    ensures exact { result ≡ load_with stored (number_between 1 60000 number.now) }
    ensures few { IfSome (options_for result) (λ options. options.lanes ≤ 64) }
    ensures some { IfSome (load_for result) IsLoad }
{
    match read_number(number) {
        Some(requests) if 1 <= requests && requests <= MOST_REQUESTS => {
            Some(Command::Gen(Load { stored, requests }))
        }
        _ => None,
    }
}

fn read_replay(place: &str, words: &[String]) -> Option<Command>
    ensures exact { result ≡ replay_in place.now (map string_bytes words.now) }
    ensures few { IfSome (options_for result) (λ options. options.lanes ≤ 64) }
    ensures some { IfSome (load_for result) IsLoad }
{
    if !is_place(place) {
        return None;
    }
    match read_options(is_file(place), words) {
        Some(options) => Some(Command::Replay(options)),
        None => None,
    }
}

/// Whether it may name a file. `-` names none, and what begins with `--` is an option.
fn is_file(name: &str) -> bool
    ensures { result ≡ Words.is_file name.now }
{
    !name.is_empty() && name != "-" && !name.starts_with("--")
}

/// Whether it is a file's name, or `-`, which is no store.
fn is_place(place: &str) -> bool
    ensures { result ≡ Words.is_place place.now }
{
    place == "-" || is_file(place)
}

fn read_options(stored: bool, words: &[String]) -> Option<Options>
    ensures exact { result ≡ options_of stored (map string_bytes words.now) }
    ensures few { IfSome result (λ options. options.lanes ≤ 64) }
{
    if !are_options(words, "--lanes", "--seed", "--seed") {
        return None;
    }
    match (read_lanes(words), read_seed(words)) {
        (Some(lanes), Some(seed)) => Some(Options {
            stored,
            lanes,
            seed,
        }),
        _ => None,
    }
}

/// How many lanes a script may name, 1 to 64.
fn read_lanes(words: &[String]) -> Option<u32>
    ensures exact { result ≡ once_or 64 (number_between 1 64) (values_of (codes "--lanes") (map string_bytes words.now)) }
    ensures few { IfSome result (λ lanes. lanes ≤ 64) }
{
    match read_option(words, "--lanes", 64, 1, 64) {
        Some(lanes) => Some(lanes as u32),
        None => None,
    }
}

fn read_seed(words: &[String]) -> Option<[u8; 32]>
    ensures { result ≡ once_or (replicate 32 0) seed_of (values_of (codes "--seed") (map string_bytes words.now)) }
{
    match find_value(words, "--seed") {
        Found::Nowhere => Some([0; 32]),
        Found::At(place) => seed_in_hex(words[place].as_bytes()),
        Found::Twice => None,
    }
}

/// A seed, in 64 hex digits of either case.
fn seed_in_hex(text: &[u8]) -> Option<[u8; 32]>
    ensures { result ≡ seed_of text.now }
{
    <[u8; 32] as FromHex>::from_hex(text).ok()
}

/// Looks for the value of the option with this name. Options are two words each.
fn find_value(words: &[String], name: &str) -> Found
    ensures { IsFound (map string_bytes words.now) result [] (values_of name.now (map string_bytes words.now)) }
{
    let mut found = Found::Nowhere;
    for option in 0..words.len() / 2 {
        if words[2 * option].as_str() == name {
            found = one_more(found, 2 * option + 1);
        }
    }
    found
}

/// One more value, at this place.
fn one_more(found: Found, place: usize) -> Found
    ensures { result ≡ found_after found place }
{
    match found {
        Found::Nowhere => Found::At(place),
        Found::At(_) | Found::Twice => Found::Twice,
    }
}
