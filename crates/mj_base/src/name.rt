ghost use Rattle.std.specs.Prelude.{◌≡◌, IsTrue, IsFalse, IfSome, IfNone};
ghost use Rattle.std.specs.List.{list_all};
ghost use Rattle.mj_base.specs.ServiceName;
ghost use Rattle.mj_base.specs.ServiceName.{name_of, is_reserved};

use std::marker::Model;

/// A service name: 1 to 255 bytes, each a printing character of ASCII or a space.
#[derive(Drop)]
pub struct Name {
    bytes: [u8; 255],
    len: u8,
}

impl Model for Name {
    ghost use Rattle.std.specs.Prelude.{List, ℕ, take};
    ghost use Rattle.mj_base.specs.ServiceName.{IsNameIn};

    ghost Value = { List ℕ };

    ghost view = { λ n. take n.len n.bytes };

    ghost invariant = { λ n. IsNameIn n.len n.bytes };
}

impl Name {
    /// These bytes as a service name, or None where they aren't one.
    pub fn of(octets: &[u8]) -> Option<Name>
        ensures exact { result ≡ name_of octets.now }
        ensures named { IfSome result (λ name. (name ≡ octets.now) × IsTrue (ServiceName.is_service_name octets.now)) }
        ensures refused { IfNone result (IsFalse (ServiceName.is_service_name octets.now)) }
    {
        if !is_service_name(octets) {
            return None;
        }
        let mut bytes = [0; 255];
        bytes[..octets.len()].copy_from_slice(octets);
        Some(Name {
            bytes,
            len: octets.len() as u8,
        })
    }

    pub fn as_slice(&self) -> &[u8]
        ensures value { result.now ≡ self.now }
        ensures named { IsTrue (ServiceName.is_service_name self.now) }
    {
        &self.bytes[..self.len as usize]
    }

    /// The same name once more.
    pub fn copy(&self) -> Name
        ensures { result ≡ self.now }
    {
        Name {
            bytes: self.bytes,
            len: self.len,
        }
    }

    /// Whether the broker answers this name itself: `mmi.` names (ZeroMQ RFC 8), and where it has a store
    /// `titanic.` names (ZeroMQ RFC 9).
    pub fn reserved(&self, stored: bool) -> bool
        ensures { result ≡ is_reserved stored self.now }
    {
        let name = self.as_slice();
        name.starts_with(b"mmi.") || (stored && name.starts_with(b"titanic."))
    }
}

fn is_service_name(octets: &[u8]) -> bool
    ensures { result ≡ ServiceName.is_service_name octets.now }
{
    !octets.is_empty() && octets.len() <= 255 && are_printable(octets)
}

fn are_printable(octets: &[u8]) -> bool
    ensures { result ≡ list_all ServiceName.is_printable octets.now }
{
    octets.iter().all(|c| is_printable(*c))
}

fn is_printable(c: u8) -> bool
    ensures { result ≡ ServiceName.is_printable c }
{
    32 <= c && c <= 126
}
