ghost use Rattle.std.specs.Prelude.{◌≡◌, ◌<◌, ℕ, IfOk, IfSome, length};
ghost use Rattle.std.specs.List.{position};
ghost use Rattle.mj_prog.specs.Script.{is_space, meaning_of, event_at, event_named, on_lane, bytes_at, bytes_on, tick_at, lane_of, piece_of, decoded, PiecesAreHex};
ghost use Rattle.mj_prog.specs.Script;
ghost use Rattle.mj_words.specs.Numbers.{number_of};
ghost use Rattle.mj_prog.specs.SpelledLines.{EventsAreSpelled};
ghost use Rattle.hex.specs.Hex.{decode_of};
ghost use Rattle.mj_prog.specs.ReadSoFar.{MeaningIsTaken, EventIsTaken, IsPiece};

use super::meaning::Meaning;
use hex::FromHexError;
use mj_base::{Event, NoMemory, Octets};
use mj_words::read_number;
use std::alloc::Global;

/// A line has at most so many bytes before its newline.
pub const LINE_BYTES: usize = 131_081;

/// A piece has at most so many hex digits.
const PIECE_DIGITS: usize = 131_072;

/// No tick is later than this many milliseconds.
const LAST_TICK: u64 = 1_000_000_000_000_000;

/// Reads one line of a script, without its newline.
pub fn read_line(alloc: Global, lanes: u32, line: &[u8]) -> Result<Meaning, NoMemory>
    ensures exact { IfOk result (λ meaning. meaning ≡ meaning_of lanes line.now) }
    ensures taken { IfOk result (MeaningIsTaken lanes) }
    ensures spelled { EventsAreSpelled lanes line.now }
{
    if line.len() > LINE_BYTES {
        return Ok(Meaning::Unlawful);
    }
    if is_silent(line) {
        return Ok(Meaning::Nothing);
    }
    if line == b"stop".as_slice() {
        return Ok(Meaning::Stop);
    }
    match read_event(alloc, lanes, line, find_space(line))? {
        Some(event) => Ok(Meaning::Act(event)),
        None => Ok(Meaning::Unlawful),
    }
}

/// Whether a line is empty or a comment.
fn is_silent(line: &[u8]) -> bool
    ensures { result ≡ Script.is_silent line.now }
{
    match line {
        [] => true,
        [first, ..] => *first == b'#',
    }
}

/// Reads an event, whose first word ends at this space.
fn read_event(
    alloc: Global,
    lanes: u32,
    line: &[u8],
    space: Option<usize>,
) -> Result<Option<Event>, NoMemory>
    requires { IfSome space (λ place. place < length line.now) }
    ensures exact { IfOk result (λ event. event ≡ event_at lanes line.now space) }
    ensures taken { IfOk result (EventIsTaken lanes) }
{
    match space {
        Some(space) => read_event_named(alloc, lanes, &line[..space], &line[space + 1..]),
        None => Ok(None),
    }
}

/// Reads the event that this word names, with the text behind the space after it.
fn read_event_named(
    alloc: Global,
    lanes: u32,
    word: &[u8],
    text: &[u8],
) -> Result<Option<Event>, NoMemory>
    ensures exact { IfOk result (λ event. event ≡ event_named lanes word.now text.now) }
    ensures taken { IfOk result (EventIsTaken lanes) }
{
    if word == b"open".as_slice() {
        return Ok(read_open(lanes, text));
    }
    if word == b"bytes".as_slice() {
        return read_bytes(alloc, lanes, text, find_space(text));
    }
    if word == b"sent".as_slice() {
        return Ok(read_sent(lanes, text));
    }
    if word == b"close".as_slice() {
        return Ok(read_close(lanes, text));
    }
    if word == b"tick".as_slice() {
        return Ok(read_tick(text));
    }
    Ok(None)
}

fn read_open(lanes: u32, text: &[u8]) -> Option<Event>
    ensures exact { result ≡ on_lane Event.Open (lane_of lanes text.now) }
    ensures taken { EventIsTaken lanes result }
{
    match read_lane(lanes, text) {
        Some(lane) => Some(Event::Open(lane)),
        None => None,
    }
}

fn read_sent(lanes: u32, text: &[u8]) -> Option<Event>
    ensures exact { result ≡ on_lane Event.Sent (lane_of lanes text.now) }
    ensures taken { EventIsTaken lanes result }
{
    match read_lane(lanes, text) {
        Some(lane) => Some(Event::Sent(lane)),
        None => None,
    }
}

fn read_close(lanes: u32, text: &[u8]) -> Option<Event>
    ensures exact { result ≡ on_lane Event.Close (lane_of lanes text.now) }
    ensures taken { EventIsTaken lanes result }
{
    match read_lane(lanes, text) {
        Some(lane) => Some(Event::Close(lane)),
        None => None,
    }
}

fn read_tick(text: &[u8]) -> Option<Event>
    ensures exact { result ≡ tick_at (number_of text.now) }
    ensures taken { (lanes : ℕ) → EventIsTaken lanes result }
{
    match read_number(text) {
        Some(ms) if ms <= LAST_TICK => Some(Event::Tick(ms)),
        _ => None,
    }
}

/// The place of the first space.
fn find_space(text: &[u8]) -> Option<usize>
    ensures place { result ≡ position is_space text.now }
    ensures inside { IfSome result (λ space. space < length text.now) }
{
    text.iter().position(|c| *c == b' ')
}

/// Reads a lane and, behind this space, a piece.
fn read_bytes(
    alloc: Global,
    lanes: u32,
    text: &[u8],
    space: Option<usize>,
) -> Result<Option<Event>, NoMemory>
    requires { IfSome space (λ place. place < length text.now) }
    ensures exact { IfOk result (λ event. event ≡ bytes_at lanes text.now space) }
    ensures taken { IfOk result (EventIsTaken lanes) }
{
    match space {
        Some(space) => {
            let lane = read_lane(lanes, &text[..space]);
            read_piece_of(alloc, lanes, lane, &text[space + 1..])
        }
        None => Ok(None),
    }
}

fn read_piece_of(
    alloc: Global,
    lanes: u32,
    lane: Option<u32>,
    digits: &[u8],
) -> Result<Option<Event>, NoMemory>
    requires { IfSome lane (λ number. number < lanes) }
    ensures exact { IfOk result (λ event. event ≡ bytes_on lane (piece_of digits.now)) }
    ensures taken { IfOk result (EventIsTaken lanes) }
{
    let Some(lane) = lane else {
        return Ok(None);
    };
    match read_piece(alloc, digits)? {
        Some(piece) => Ok(Some(Event::Bytes(lane, piece))),
        None => Ok(None),
    }
}

fn read_lane(lanes: u32, text: &[u8]) -> Option<u32>
    ensures exact { result ≡ lane_of lanes text.now }
    ensures below { IfSome result (λ lane. lane < lanes) }
{
    match read_number(text) {
        Some(number) if number < u64::from(lanes) => Some(number as u32),
        _ => None,
    }
}

/// Reads a piece: 2 to 131,072 hex digits of either case, an even number of them.
fn read_piece(alloc: Global, digits: &[u8]) -> Result<Option<Octets>, NoMemory>
    ensures exact { IfOk result (λ piece. piece ≡ piece_of digits.now) }
    ensures sized { IfOk result (λ piece. IfSome piece IsPiece) }
    ensures hex { PiecesAreHex digits.now }
{
    if digits.is_empty() || digits.len() > PIECE_DIGITS {
        return Ok(None);
    }
    decode_piece(alloc, digits)
}

fn decode_piece(alloc: Global, digits: &[u8]) -> Result<Option<Octets>, NoMemory>
    ensures { IfOk result (λ piece. piece ≡ decoded (decode_of digits.now)) }
{
    match hex::decode(alloc, digits) {
        Ok(bytes) => {
            let mut piece = Octets::new(alloc);
            piece.push_all(bytes.as_slice())?;
            Ok(Some(piece))
        }
        Err(FromHexError::OutOfMemory) => Err(NoMemory),
        Err(_) => Ok(None),
    }
}
