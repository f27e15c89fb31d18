ghost use Rattle.std.specs.Prelude.{◌≡◌, ◌++◌, ◌↔◌, ◌⊎◌, OnOk, OnErr, IfOk, IfErr, Err};
ghost use Rattle.mj_handshake.specs.ReadyGrammar;
ghost use Rattle.mj_handshake.specs.ReadyGrammar.{ready_of, answer_of, ready_frame, NamesType, IsBadHandshake, IsBadSocketType};
ghost use Rattle.mj_handshake.specs.ReadyReading.{properties_of};

use super::SocketType;
use super::property::{cut_property, is_long_identity, named_type};
use mj_base::{NoMemory, Octets, Reason};
use mj_frame::write_frame;

/// Reads the body of a READY: the socket type, `BadHandshake` where it is none, or `BadSocketType` where its
/// first `Socket-Type` is missing or is no type of the Majordomo protocol.
pub fn read_ready(body: &[u8]) -> Result<SocketType, Reason>
    ensures exact { result ≡ ready_of body.now }
    ensures found { IfOk result (λ kind. NamesType body.now kind) }
    ensures bad_handshake { (result ≡ Err Reason.BadHandshake) ↔ IsBadHandshake body.now }
    ensures bad_socket_type { (result ≡ Err Reason.BadSocketType) ↔ IsBadSocketType body.now }
    ensures reasons { IfErr result (λ reason. (reason ≡ Reason.BadHandshake) ⊎ (reason ≡ Reason.BadSocketType)) }
{
    ready_type(body)
}

#[tactic(auto, unfolding(crate::specs::ReadyGrammar::ready_of))]
fn ready_type(body: &[u8]) -> Result<SocketType, Reason>
    ensures { result ≡ ready_of body.now }
{
    match body.strip_prefix(b"\x05READY") {
        Some(properties) => read_properties(properties),
        None => Err(Reason::BadHandshake),
    }
}

/// Appends the READY of a socket of this type as a whole frame. Without memory nothing is appended.
pub fn write_ready(kind: SocketType, out: &mut Octets) -> Result<(), NoMemory>
    ensures ok { OnOk result (out.new ≡ out.old ++ ready_frame kind) }
    ensures err { OnErr result (out.new ≡ out.old) }
{
    write_frame(false, true, ready_body(kind), out)
}

/// Reads the properties one by one, up to the first that is none.
fn read_properties(octets: &[u8]) -> Result<SocketType, Reason>
    ensures { result ≡ answer_of (properties_of octets.now) }
{
    let mut rest = octets;
    let mut found = None;
    while !rest.is_empty() {
        let Some(cut) = cut_property(rest) else {
            return Err(Reason::BadHandshake);
        };
        if is_long_identity(cut.name, cut.value) {
            return Err(Reason::BadHandshake);
        }
        found = found.or(named_type(cut.name, cut.value));
        rest = cut.rest;
    }
    found.unwrap_or(Err(Reason::BadSocketType))
}

fn ready_body(kind: SocketType) -> &'static [u8]
    ensures { result.now ≡ ReadyGrammar.ready_body kind }
{
    match kind {
        SocketType::Req => b"\x05READY\x0bSocket-Type\0\0\0\x03REQ",
        SocketType::Dealer => b"\x05READY\x0bSocket-Type\0\0\0\x06DEALER",
        SocketType::Router => b"\x05READY\x0bSocket-Type\0\0\0\x06ROUTER",
    }
}
