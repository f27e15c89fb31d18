//! The reading of a line.
ghost use Rattle.std.specs.Prelude.{◌≡◌, ◌<◌, IfOk, IfSome, length};
ghost use Rattle.std.specs.List.{position};
ghost use Rattle.hex.specs.Hex.{decode_of};
ghost use Rattle.mj_transcript.specs.Text;
ghost use Rattle.mj_transcript.specs.Text.{close_line, decoded, in_line, is_space, lane_of, lapse_line, line_of, octets_of, open_line, out_line, placed_at, placed_of, placed_on, worded, worded_at};
ghost use Rattle.mj_transcript.specs.LineBounds.{IsOnLanes};

use super::Line;
use hex::FromHexError;
use mj_base::{NoMemory, Octets};
use mj_words::read_number;
use std::alloc::Global;

/// A line has at most so many bytes before its newline.
pub const LINE_BYTES: usize = 131_081;

/// An address is written with at most so many hex digits.
const ADDRESS_DIGITS: usize = 510;

/// A piece of a stream is written with at most so many hex digits.
const PIECE_DIGITS: usize = 131_072;

/// The number of lanes.
const LANES: u64 = 64;

/// Bytes on a lane.
#[derive(Drop)]
pub(crate) struct Placed {
    lane: u32,
    octets: Octets,
}

/// Reads one line of a transcript, without its newline.
pub fn read_line(alloc: Global, text: &[u8]) -> Result<Line, NoMemory>
    ensures exact { IfOk result (λ line. line ≡ line_of text.now) }
    ensures lanes { IfOk result IsOnLanes }
{
    if text.len() > LINE_BYTES {
        return Ok(Line::Unlawful);
    }
    if is_silent(text) {
        return Ok(Line::Silent);
    }
    match find_space(text) {
        Some(space) => read_worded(alloc, &text[..space], &text[space + 1..]),
        None => Ok(Line::Unlawful),
    }
}

/// Whether a line is empty or a comment.
fn is_silent(text: &[u8]) -> bool
    ensures { result ≡ Text.is_silent text.now }
{
    match text {
        [] => true,
        [first, ..] => *first == b'#',
    }
}

/// The place of the first space.
fn find_space(text: &[u8]) -> Option<usize>
    ensures place { result ≡ position is_space text.now }
    ensures inside { IfSome result (λ space. space < length text.now) }
{
    text.iter().position(|c| *c == b' ')
}

/// Reads a line by its first word, with the text behind the space after it.
fn read_worded(alloc: Global, word: &[u8], text: &[u8]) -> Result<Line, NoMemory>
    ensures exact { IfOk result (λ line. line ≡ worded word.now text.now) }
    ensures lanes { IfOk result IsOnLanes }
{
    if word == b"open".as_slice() {
        return Ok(open_line(read_placed(alloc, ADDRESS_DIGITS, text)?));
    }
    if word == b"in".as_slice() {
        return Ok(in_line(read_placed(alloc, PIECE_DIGITS, text)?));
    }
    if word == b"out".as_slice() {
        return Ok(out_line(read_placed(alloc, PIECE_DIGITS, text)?));
    }
    if word == b"close".as_slice() {
        return Ok(close_line(read_lane(text)));
    }
    if word == b"lapse".as_slice() {
        return Ok(lapse_line(read_lane(text)));
    }
    Ok(Line::Unlawful)
}

fn open_line(placed: Option<Placed>) -> Line
    requires { IfSome placed (λ p. p.lane < 64) }
    ensures exact { result ≡ Text.open_line placed }
    ensures lanes { IsOnLanes result }
{
    match placed {
        Some(placed) => Line::Open(placed.lane, placed.octets),
        None => Line::Unlawful,
    }
}

fn in_line(placed: Option<Placed>) -> Line
    requires { IfSome placed (λ p. p.lane < 64) }
    ensures exact { result ≡ Text.in_line placed }
    ensures lanes { IsOnLanes result }
{
    match placed {
        Some(placed) => Line::In(placed.lane, placed.octets),
        None => Line::Unlawful,
    }
}

fn out_line(placed: Option<Placed>) -> Line
    requires { IfSome placed (λ p. p.lane < 64) }
    ensures exact { result ≡ Text.out_line placed }
    ensures lanes { IsOnLanes result }
{
    match placed {
        Some(placed) => Line::Out(placed.lane, placed.octets),
        None => Line::Unlawful,
    }
}

fn close_line(lane: Option<u32>) -> Line
    requires { IfSome lane (λ n. n < 64) }
    ensures exact { result ≡ Text.close_line lane }
    ensures lanes { IsOnLanes result }
{
    match lane {
        Some(lane) => Line::Close(lane),
        None => Line::Unlawful,
    }
}

fn lapse_line(lane: Option<u32>) -> Line
    requires { IfSome lane (λ n. n < 64) }
    ensures exact { result ≡ Text.lapse_line lane }
    ensures lanes { IsOnLanes result }
{
    match lane {
        Some(lane) => Line::Lapse(lane),
        None => Line::Unlawful,
    }
}

/// Reads a lane and, behind a space, bytes in at most so many hex digits.
fn read_placed(alloc: Global, most: usize, text: &[u8]) -> Result<Option<Placed>, NoMemory>
    ensures exact { IfOk result (λ placed. placed ≡ placed_of most text.now) }
    ensures lanes { IfOk result (λ placed. IfSome placed (λ p. p.lane < 64)) }
{
    match find_space(text) {
        Some(space) => {
            let lane = read_lane(&text[..space]);
            read_octets_on(alloc, most, lane, &text[space + 1..])
        }
        None => Ok(None),
    }
}

fn read_octets_on(
    alloc: Global,
    most: usize,
    lane: Option<u32>,
    digits: &[u8],
) -> Result<Option<Placed>, NoMemory>
    requires { IfSome lane (λ n. n < 64) }
    ensures exact { IfOk result (λ placed. placed ≡ placed_on lane (octets_of most digits.now)) }
    ensures lanes { IfOk result (λ placed. IfSome placed (λ p. p.lane < 64)) }
{
    let Some(lane) = lane else {
        return Ok(None);
    };
    match read_octets(alloc, most, digits)? {
        Some(octets) => Ok(Some(Placed { lane, octets })),
        None => Ok(None),
    }
}

fn read_lane(text: &[u8]) -> Option<u32>
    ensures exact { result ≡ lane_of text.now }
    ensures below { IfSome result (λ lane. lane < 64) }
{
    match read_number(text) {
        Some(number) if number < LANES => Some(number as u32),
        _ => None,
    }
}

/// Reads an even number of hex digits of either case, from 2 to so many.
fn read_octets(alloc: Global, most: usize, digits: &[u8]) -> Result<Option<Octets>, NoMemory>
    ensures { IfOk result (λ octets. octets ≡ octets_of most digits.now) }
{
    if digits.is_empty() || digits.len() > most {
        return Ok(None);
    }
    decode(alloc, digits)
}

fn decode(alloc: Global, digits: &[u8]) -> Result<Option<Octets>, NoMemory>
    ensures { IfOk result (λ octets. octets ≡ decoded (decode_of digits.now)) }
{
    match hex::decode(alloc, digits) {
        Ok(bytes) => Ok(Some(Octets::from_vec(bytes))),
        Err(FromHexError::OutOfMemory) => Err(NoMemory),
        Err(_) => Ok(None),
    }
}
