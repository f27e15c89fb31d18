ghost use Rattle.std.specs.Prelude.{◌≡◌, ◌≤◌, ◌↔◌, length, slice_index, IfSome, None, IsOk, Ok};
ghost use Rattle.mj_greeting.specs.GreetingGrammar;
ghost use Rattle.mj_greeting.specs.GreetingGrammar.{IsGreeting, fault_of, greeting_of, mechanism};
ghost use Rattle.mj_greeting.specs.GreetingTable.{IsFineBelow, IsFirstFault};

use mj_base::Reason;

/// What a greeting says beside its signature and mechanism.
#[derive(Clone, Copy, Debug, PartialEq, Eq)]
pub struct Greeting {
    /// The major version, at least 3.
    pub major: u8,
    pub minor: u8,
    /// Whether the peer takes the server's part in its mechanism; NULL has no use for it.
    pub as_server: u8,
}

/// Why a greeting isn't accepted.
#[derive(Clone, Copy, Debug, PartialEq, Eq)]
pub struct GreetingFault {
    pub reason: Reason,
    /// The offset of the wrong byte.
    pub at: u64,
}

/// The first byte that breaks the greeting's grammar (ZeroMQ RFC 23, greeting), in the whole greeting or a
/// front of it.
pub fn greeting_fault(front: &[u8]) -> Option<GreetingFault>
    requires { length front.now ≤ 64 }
    ensures exact { result ≡ fault_of front.now }
    ensures found { IfSome result (λ fault. IsFirstFault front.now fault) }
    ensures none { (result ≡ None) ↔ IsFineBelow front.now (length front.now) }
{
    first_fault(front)
}

fn first_fault(front: &[u8]) -> Option<GreetingFault>
    ensures { result ≡ fault_of front.now }
{
    for (i, octet) in front.iter().enumerate() {
        if let Some(reason) = reason_at(i, *octet) {
            return Some(GreetingFault {
                reason,
                at: i as u64,
            });
        }
    }
    None
}

/// The greeting that these bytes are, or its first fault.
pub fn read_greeting(octets: &[u8; 64]) -> Result<Greeting, GreetingFault>
    ensures exact { result ≡ greeting_of octets.now }
    ensures accepted { IsOk result ↔ IsGreeting octets.now }
{
    match greeting_fault(octets) {
        Some(fault) => Err(fault),
        None => Ok(Greeting {
            major: octets[10],
            minor: octets[11],
            as_server: octets[32],
        }),
    }
}

/// The greeting that every side of this project sends: version 3.0, mechanism NULL, no server.
pub fn broker_greeting() -> [u8; 64]
    ensures exact { result ≡ GreetingGrammar.broker_greeting }
    ensures accepted { IsGreeting result }
    ensures again { greeting_of result ≡ Ok (record { major = 3; minor = 0; as_server = 0 }) }
{
    let mut greeting = [0; 64];
    greeting[0] = 0xff;
    greeting[9] = 0x7f;
    greeting[10] = 3;
    greeting[12..16].copy_from_slice(b"NULL");
    greeting
}

/// The fault of this byte at this offset.
fn reason_at(offset: usize, octet: u8) -> Option<Reason>
    ensures { result ≡ GreetingGrammar.reason_at offset octet }
{
    match offset {
        0 => reason_unless(octet == 0xff, Reason::BadSignature),
        9 => reason_unless(octet == 0x7f, Reason::BadSignature),
        10 => reason_unless(3 <= octet, Reason::BadVersion),
        12..=31 => reason_unless(octet == mechanism_at(offset - 12), Reason::BadMechanism),
        _ => None,
    }
}

fn reason_unless(fine: bool, reason: Reason) -> Option<Reason>
    ensures { result ≡ GreetingGrammar.reason_unless fine reason }
{
    if fine { None } else { Some(reason) }
}

/// The byte of the mechanism NULL at this offset in its field, which zeros fill up.
fn mechanism_at(offset: usize) -> u8
    ensures { result ≡ slice_index mechanism offset }
{
    b"NULL".get(offset).copied().unwrap_or(0)
}
