ghost use Rattle.std.specs.Prelude.{◌≡◌, option_map};
ghost use Rattle.std.specs.List.{list_all};
ghost use Rattle.mj_handshake.specs.ReadyProperty;
ghost use Rattle.mj_handshake.specs.ReadyReading;
ghost use Rattle.mj_handshake.specs.ReadyReading.{name_at, value_at, part_at, property_at, cut};

use super::SocketType;
use super::socket_type::type_of;
use mj_base::Reason;

/// The property that some bytes begin with, and the bytes behind it.
#[derive(Clone, Copy)]
pub struct Cut<'a> {
    pub name: &'a [u8],
    pub value: &'a [u8],
    pub rest: &'a [u8],
}

/// Cuts off the property that the bytes begin with, or None where they begin with none.
#[tactic(auto, unfolding(crate::specs::ReadyReading::property_at))]
pub fn cut_property(octets: &[u8]) -> Option<Cut<'_>>
    ensures { option_map (λ c. cut c.name.now c.value.now c.rest.now) result ≡ property_at octets.now }
{
    let (name, behind) = cut_name(octets)?;
    let (value, rest) = cut_value(behind)?;
    Some(Cut { name, value, rest })
}

/// Whether the property is an `Identity` of more than 255 bytes.
pub fn is_long_identity(name: &[u8], value: &[u8]) -> bool
    ensures { result ≡ ReadyProperty.is_long_identity name.now value.now }
{
    value.len() > 255 && is_named(b"Identity", name)
}

/// What the property says of the socket type, where it is a `Socket-Type`.
pub fn named_type(name: &[u8], value: &[u8]) -> Option<Result<SocketType, Reason>>
    ensures { result ≡ ReadyProperty.named_type name.now value.now }
{
    if is_named(b"Socket-Type", name) {
        Some(type_of(value))
    } else {
        None
    }
}

fn is_named(wanted: &[u8], name: &[u8]) -> bool
    ensures { result ≡ ReadyProperty.is_named wanted.now name.now }
{
    wanted.eq_ignore_ascii_case(name)
}

fn cut_name(octets: &[u8]) -> Option<(&[u8], &[u8])>
    ensures { option_map (λ p. (p.0.now, p.1.now)) result ≡ name_at octets.now }
{
    let (size, rest) = octets.split_first()?;
    let (name, behind) = cut_at(rest, usize::from(*size))?;
    if is_name(name) {
        Some((name, behind))
    } else {
        None
    }
}

fn cut_value(octets: &[u8]) -> Option<(&[u8], &[u8])>
    ensures { option_map (λ p. (p.0.now, p.1.now)) result ≡ value_at octets.now }
{
    let (size, rest) = octets.split_first_chunk::<4>()?;
    cut_at(rest, u32::from_be_bytes(*size) as usize)
}

fn cut_at(octets: &[u8], size: usize) -> Option<(&[u8], &[u8])>
    ensures { option_map (λ p. (p.0.now, p.1.now)) result ≡ part_at size octets.now }
{
    if octets.len() < size {
        None
    } else {
        Some(octets.split_at(size))
    }
}

fn is_name(name: &[u8]) -> bool
    ensures { result ≡ ReadyReading.is_name name.now }
{
    !name.is_empty() && are_name_bytes(name)
}

fn are_name_bytes(name: &[u8]) -> bool
    ensures { result ≡ list_all ReadyProperty.is_name_byte name.now }
{
    name.iter().all(|c| is_name_byte(*c))
}

fn is_name_byte(c: u8) -> bool
    ensures { result ≡ ReadyProperty.is_name_byte c }
{
    c.is_ascii_alphanumeric() || c == b'-' || c == b'_' || c == b'.' || c == b'+'
}
