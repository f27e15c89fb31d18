ghost use Rattle.std.specs.Prelude.{◌≡◌, ◌<◌, ◌≤◌, ◌^◌, ◌+◌, ◌++◌, ◌∷◌, [], IfOk, IfErr, IfSome, IsTrue, length, MatchBool, OnOk};
ghost use Rattle.mj_journal.specs.FileText.{name, header_2, base_octets, IsHeader};
ghost use Rattle.mj_journal.specs.Opening.{IsBadHeader, IsEmptyWith};

use super::OpenFault;

const MIN_BASE: u64 = 1;

const MAX_BASE: u64 = 1 << 61;

/// A new file: the header of format 2, and a closed gate.
#[tactic(auto, unfolding(crate::specs::FileText::base_octets))]
pub(crate) fn new_file(base: u64) -> [u8; 17]
    ensures { result ≡ header_2 base ++ 0 ∷ [] }
{
    let b = base.to_be_bytes();
    [
        b'M', b'J', b'T', b'S', b'T', b'O', b'R', b'2', b[0], b[1], b[2], b[3], b[4], b[5], b[6],
        b[7], 0,
    ]
}

/// The base of a file that has this header.
pub(crate) fn read_header(front: &[u8; 16]) -> Result<u64, OpenFault>
    ensures header { IfOk result (λ base. IsHeader base front.now) }
    ensures based { IfOk result (λ base. (1 ≤ base) × (base ≤ 2 ^ 61)) }
    ensures refused { IfErr result (λ fault. IsBadHeader fault front.now) }
{
    if front[..7] != [b'M', b'J', b'T', b'S', b'T', b'O', b'R'] {
        return Err(OpenFault::NotAStore);
    }
    let Some((_, tail)) = front.split_last_chunk::<8>() else {
        return Err(OpenFault::NotAStore);
    };
    read_version(front[7], tail)
}

/// What follows the name: a version's digit, and eight bytes.
fn read_version(version: u8, tail: &[u8; 8]) -> Result<u64, OpenFault>
    ensures header { IfOk result (λ base. IsHeader base (name ++ version ∷ tail.now)) }
    ensures based { IfOk result (λ base. (1 ≤ base) × (base ≤ 2 ^ 61)) }
    ensures refused { IfErr result (λ fault. IsBadHeader fault (name ++ version ∷ tail.now)) }
{
    if version == b'1' {
        return read_format_1(tail);
    }
    if version == b'2' {
        return read_format_2(tail);
    }
    if is_digit(version) {
        return Err(OpenFault::Version(version - b'0'));
    }
    Err(OpenFault::NotAStore)
}

fn read_format_1(tail: &[u8; 8]) -> Result<u64, OpenFault>
    ensures header { IfOk result (λ base. IsHeader base (name ++ 49 ∷ tail.now)) }
    ensures based { IfOk result (λ base. (1 ≤ base) × (base ≤ 2 ^ 61)) }
    ensures refused { IfErr result (λ fault. IsBadHeader fault (name ++ 49 ∷ tail.now)) }
{
    if *tail != [0, 0, 0, 0, 0, 0, 0, 0] {
        return Err(OpenFault::NotAStore);
    }
    Ok(1)
}

fn read_format_2(tail: &[u8; 8]) -> Result<u64, OpenFault>
    ensures header { IfOk result (λ base. IsHeader base (name ++ 50 ∷ tail.now)) }
    ensures based { IfOk result (λ base. (1 ≤ base) × (base ≤ 2 ^ 61)) }
    ensures refused { IfErr result (λ fault. IsBadHeader fault (name ++ 50 ∷ tail.now)) }
{
    let base = base_of(tail);
    if base < MIN_BASE {
        return Err(OpenFault::NotAStore);
    }
    if base > MAX_BASE {
        return Err(OpenFault::NotAStore);
    }
    Ok(base)
}

fn base_of(tail: &[u8; 8]) -> u64
    ensures { base_octets result ≡ tail.now }
{
    u64::from_be_bytes(*tail)
}

fn is_digit(octet: u8) -> bool
    ensures { MatchBool result ((48 ≤ octet) × (octet ≤ 57)) (¬ ((48 ≤ octet) × (octet ≤ 57))) }
{
    octet >= b'0' && octet <= b'9'
}

/// The base of a file that is exactly a header and a closed gate.
pub(crate) fn read_empty(front: &[u8]) -> Option<u64>
    ensures found { IsEmptyWith result front.now }
    ensures based { IfSome result (λ base. (1 ≤ base) × (base ≤ 2 ^ 61)) }
{
    let Some((head, rest)) = front.split_first_chunk::<16>() else {
        return None;
    };
    if rest != [0].as_slice() {
        return None;
    }
    match read_header(head) {
        Ok(base) => Some(base),
        Err(_) => None,
    }
}
