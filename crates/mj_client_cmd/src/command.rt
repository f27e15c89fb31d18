ghost use Rattle.std.specs.Prelude.{◌↔◌, IsTrue};

use mj_base::{Frames, Name, Version};

/// A client asks a service (ZeroMQ RFC 7, client request).
#[derive(Drop)]
pub struct ClientCmd {
    pub version: Version,
    /// Whether the empty frame stands first, as it always does in 0.1.
    pub lead: bool,
    pub service: Name,
    pub body: Frames,
}

impl ClientCmd {
    ghost use Rattle.mj_client_cmd.specs.ClientGrammar.{IsLed};

    /// Whether its version has such a request.
    pub fn is_writable(&self) -> bool
        ensures { IsTrue result ↔ IsLed self.now.version self.now.lead }
    {
        match self.version {
            Version::One => self.lead,
            Version::Two => true,
        }
    }
}

/// What a service answers, passed on to the client (ZeroMQ RFC 7, client reply).
#[derive(Drop)]
pub struct ClientReply {
    pub version: Version,
    /// Whether the empty frame stands first, as it always does in 0.1.
    pub lead: bool,
    /// Whether no further reply to the request follows, as always in 0.1.
    pub last: bool,
    pub service: Name,
    pub body: Frames,
}

impl ClientReply {
    ghost use Rattle.mj_client_cmd.specs.ClientGrammar.{IsReplyKind};

    /// Whether its version has such a reply.
    pub fn is_writable(&self) -> bool
        ensures { IsTrue result ↔ IsReplyKind self.now.version self.now.lead self.now.last }
    {
        match self.version {
            Version::One => self.lead && self.last,
            Version::Two => true,
        }
    }
}
