ghost use Rattle.std.specs.Prelude.{◌≡◌, ◌+◌, ◌*◌, ◌^◌, ◌<◌, List, ℕ, Some, IfSome, IfNone};
ghost use Rattle.uuid.specs.Text.{parsed};
ghost use Rattle.mj_ids.specs.Ids;
ghost use Rattle.mj_ids.specs.Ids.{IsId, IsIdText, id_in, id_of, id_with, read_of, spelled, text_of, word_of};

use rand_chacha::ChaCha20Rng;
use rand_core::SeedableRng;
use rand_core::utils::NextWord;
use std::marker::Model;
use uuid::Uuid;

/// The id of a ticket: sixteen bytes, a UUID of version 8 and of the variant of RFC 9562. Its last 62 bits are the
/// ticket's number; the other bits are drawn, so that who hasn't seen an id can't name it.
#[derive(Clone, Copy, Debug, PartialEq, Eq)]
pub struct TicketId {
    uuid: Uuid,
}

impl Model for TicketId {
    ghost use Rattle.std.specs.Prelude.{List, ℕ};
    ghost use Rattle.mj_ids.specs.Ids.{IsId};

    ghost Value = { List ℕ };

    ghost view = { λ id. id.uuid };

    ghost invariant = { λ id. IsId id.uuid };

    ghost inverse = { λ octets. record { uuid = octets } };
}

impl TicketId {
    /// The id of this ticket under this seed.
    #[tactic(auto, unfolding(crate::specs::Ids::id_of))]
    pub fn of(seed: &[u8; 32], number: u64) -> TicketId
        requires { number < 2 ^ 62 }
        ensures value { result ≡ id_of seed.now number }
        ensures number { Ids.number_of result ≡ number }
        ensures valid { IsId result }
    {
        let (first, second) = words_of(seed, number);
        let uuid = layout(first, second, number);
        TicketId { uuid }
    }

    /// The hyphenated form in lower case.
    pub fn text(&self) -> [u8; 36]
        ensures value { result ≡ text_of self.now }
        ensures read { read_of result ≡ Some self.now }
    {
        let mut buffer = [0; 36];
        let hyphenated = self.uuid.hyphenated();
        let text = hyphenated.encode_lower(&mut buffer);
        let mut copy = [0; 36];
        copy.copy_from_slice(text.as_bytes());
        copy
    }

    /// The id that this text is: hyphenated, without hyphens, hyphenated in braces, or hyphenated behind `urn:uuid:`;
    /// the digits are of either case. None where it is no such text, or the UUID is of another version or variant.
    pub fn read(text: &[u8]) -> Option<TicketId>
        ensures exact { result ≡ read_of text.now }
        ensures found { IfSome result (λ id. IsIdText id text.now) }
        ensures only { IfNone result ((id : List ℕ) → IsIdText id text.now → ⊥) }
    {
        id_of_text(text)
    }

    /// The number of the ticket.
    #[tactic(auto, unfolding(crate::specs::Ids::number_of))]
    pub fn number(&self) -> u64
        ensures value { result ≡ Ids.number_of self.now }
        ensures small { result < 2 ^ 62 }
    {
        let (_, _, _, last) = self.uuid.as_fields();
        u64::from_be_bytes(last) % (1 << 62)
    }

    /// The sixteen bytes.
    pub fn octets(&self) -> [u8; 16]
        ensures value { result ≡ self.now }
        ensures valid { IsId self.now }
    {
        self.uuid.into_bytes()
    }

    /// These bytes as an id. None where version or variant differ.
    pub fn from_octets(octets: &[u8; 16]) -> Option<TicketId>
        ensures exact { result ≡ id_in octets.now }
        ensures valid { IfSome result (λ id. (id ≡ octets.now) × IsId id) }
    {
        id_if_valid(Uuid::from_bytes(*octets))
    }
}

/// The two words of ChaCha20 that the ticket's number picks.
#[tactic(auto, unfolding(crate::specs::Ids::word_of))]
fn words_of(seed: &[u8; 32], number: u64) -> (u32, u32)
    requires { number < 2 ^ 62 }
    ensures first { result.0 ≡ word_of seed.now (2 * number) }
    ensures second { result.1 ≡ word_of seed.now (2 * number + 1) }
{
    let mut words = ChaCha20Rng::from_seed(*seed);
    words.set_word_pos(u128::from(number) * 2);
    let first = words.next_word();
    let second = words.next_word();
    (first, second)
}

/// The fields of a UUID of version 8, one behind the other.
fn layout(first: u32, second: u32, number: u64) -> Uuid
    requires { number < 2 ^ 62 }
    ensures { result ≡ id_with first second number }
{
    let a = first.to_be_bytes();
    let b = ((second >> 16) as u16).to_be_bytes();
    let c = (0x8000 + (second % 0x1000) as u16).to_be_bytes();
    let d = ((1 << 63) + number).to_be_bytes();
    Uuid::from_bytes([
        a[0], a[1], a[2], a[3], b[0], b[1], c[0], c[1], d[0], d[1], d[2], d[3], d[4], d[5], d[6],
        d[7],
    ])
}

#[tactic(auto, unfolding(crate::specs::Ids::read_of))]
fn id_of_text(text: &[u8]) -> Option<TicketId>
    ensures { result ≡ read_of text.now }
{
    let uuid = uuid_of(text)?;
    id_if_valid(uuid)
}

/// The UUID that this text spells, where the prefix `urn:uuid:` is in lower case.
fn uuid_of(text: &[u8]) -> Option<Uuid>
    ensures { result ≡ spelled text.now }
{
    if text.len() == 45 && !text.starts_with(b"urn:uuid:") {
        return None;
    }
    uuid_in(text)
}

fn uuid_in(text: &[u8]) -> Option<Uuid>
    ensures { result ≡ parsed text.now }
{
    match Uuid::try_parse_ascii(text) {
        Ok(uuid) => Some(uuid),
        Err(_) => None,
    }
}

fn id_if_valid(uuid: Uuid) -> Option<TicketId>
    ensures exact { result ≡ id_in uuid }
    ensures valid { IfSome result (λ id. (id ≡ uuid) × IsId id) }
{
    let octets = uuid.as_bytes();
    if octets[6] >> 4 == 8 && octets[8] >> 6 == 2 {
        Some(TicketId { uuid })
    } else {
        None
    }
}
