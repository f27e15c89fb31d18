//! Messages between the two ends, as they stand on a link.
ghost use Rattle.std.specs.Prelude.{◌≡◌, ◌+◌, ◌<◌, ◌≤◌, ◌∷◌, length, take, drop};
ghost use Rattle.mj_copy.specs.Found.{IsWithin, found_of, said_in};
ghost use Rattle.mj_copy.specs.Messages;
ghost use Rattle.mj_copy.specs.Messages.{reading};
ghost use Rattle.mj_frame.specs.HeadReading.{IfHead};

use mj_frame::{HeadAnswer, read_head};

/// What a message says, without the payload.
#[derive(Clone, Copy, Debug, PartialEq, Eq)]
pub enum Said {
    /// The base of the sender's file.
    Base(u64),
    /// How many commands the sender's file has.
    Have(u64),
    /// A payload follows, which has this offset in the sender's file.
    Send(u64),
    /// There are no more.
    End,
}

/// What the bytes of a link begin with.
#[derive(Clone, Copy, Debug, PartialEq, Eq)]
pub enum Found {
    /// A message, the bytes of its head and those of its body.
    Whole(Said, usize, usize),
    /// Nothing whole yet.
    Short,
    /// No message of these two ends: the link counts as ended.
    Wrong,
}

/// Looks for a message at the front of what was read. Nothing is copied.
pub fn find(octets: &[u8]) -> Found
    ensures found { found_of result octets.now ≡ reading octets.now }
    ensures within { IsWithin result (length octets.now) }
{
    match octets.first() {
        None => Found::Short,
        Some(flags) => {
            if *flags == 0 || *flags == 2 {
                headed(read_head(octets), octets)
            } else {
                Found::Wrong
            }
        }
    }
}

/// Behind a flags byte of a message.
fn headed(answer: HeadAnswer, octets: &[u8]) -> Found
    requires { IfHead answer (λ h n. n ≤ length octets.now) }
    ensures found { found_of result octets.now ≡ Messages.headed answer octets.now }
    ensures within { IsWithin result (length octets.now) }
{
    match answer {
        HeadAnswer::Short => Found::Short,
        HeadAnswer::BadFlags => Found::Wrong,
        HeadAnswer::Head(head, len) => {
            if is_size(head.size) && is_canonical(head.size, len) {
                behind_head(head.size, len, octets)
            } else {
                Found::Wrong
            }
        }
    }
}

/// Whether a message's body can have so many bytes.
fn is_size(size: u64) -> bool
    ensures { result ≡ Messages.is_size size }
{
    size == 1 || size == 9 || (10 <= size && size <= 2_097_161)
}

/// Whether a head of so many bytes is the one that is written for this size.
fn is_canonical(size: u64, head: usize) -> bool
    ensures { result ≡ Messages.is_canonical size head }
{
    head == if size < 256 { 2 } else { 9 }
}

fn behind_head(size: u64, head: usize, octets: &[u8]) -> Found
    requires { head ≤ length octets.now }
    ensures found { found_of result octets.now ≡ Messages.behind_head size (drop head octets.now) }
    ensures within { IsWithin result (length octets.now) }
{
    let rest = octets.split_at(head).1;
    if (rest.len() as u64) < size {
        return Found::Short;
    }
    match message_in(rest.split_at(size as usize).0) {
        None => Found::Wrong,
        Some(message) => Found::Whole(message, head, size as usize),
    }
}

fn message_in(body: &[u8]) -> Option<Said>
    ensures { said_in result body.now ≡ Messages.message_in body.now }
{
    match body.split_first() {
        None => None,
        Some((letter, rest)) => lettered(*letter, rest),
    }
}

/// By the letter, and the bytes behind it.
fn lettered(letter: u8, rest: &[u8]) -> Option<Said>
    ensures { said_in result (letter ∷ rest.now) ≡ Messages.lettered letter rest.now }
{
    if rest.is_empty() {
        if letter == b'E' {
            Some(Said::End)
        } else {
            None
        }
    } else if rest.len() == 8 {
        numbered(letter, number_in(rest), rest)
    } else if letter == b'S' && 8 < rest.len() {
        Some(Said::Send(number_in(rest)))
    } else {
        None
    }
}

fn numbered(letter: u8, n: u64, rest: &[u8]) -> Option<Said>
    ensures { said_in result (letter ∷ rest.now) ≡ Messages.numbered letter n }
{
    if letter == b'B' {
        if 1 <= n && n <= 1 << 61 {
            Some(Said::Base(n))
        } else {
            None
        }
    } else if letter == b'H' {
        Some(Said::Have(n))
    } else {
        None
    }
}

/// The number in the first eight bytes.
#[tactic(auto, unfolding(crate::specs::Messages::number_in))]
fn number_in(octets: &[u8]) -> u64
    requires { 8 ≤ length octets.now }
    ensures { result ≡ Messages.number_in (take 8 octets.now) }
{
    match octets.first_chunk::<8>() {
        None => 0,
        Some(number) => u64::from_be_bytes(*number),
    }
}
