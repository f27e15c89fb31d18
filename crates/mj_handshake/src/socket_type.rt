ghost use Rattle.std.specs.Prelude.{◌≡◌};
ghost use Rattle.mj_handshake.specs.ReadyProperty;

use mj_base::Reason;

/// The types of the sockets that talk the Majordomo protocol.
#[derive(Clone, Copy, Debug, PartialEq, Eq)]
pub enum SocketType {
    Req,
    Dealer,
    Router,
}

/// The type that the value of a `Socket-Type` names.
pub fn type_of(value: &[u8]) -> Result<SocketType, Reason>
    ensures { result ≡ ReadyProperty.type_of value.now }
{
    if value == b"REQ".as_slice() {
        Ok(SocketType::Req)
    } else if value == b"DEALER".as_slice() {
        Ok(SocketType::Dealer)
    } else if value == b"ROUTER".as_slice() {
        Ok(SocketType::Router)
    } else {
        Err(Reason::BadSocketType)
    }
}
