//! What the ends write, and what they read of the broker's messages.
ghost use Rattle.std.specs.Prelude.{◌≡◌, ◌<◌, length, IfOk};
ghost use Rattle.mj_frame.specs.FrameSpelling.{message_octets};
ghost use Rattle.mj_peer.specs.PeerTexts;
ghost use Rattle.mj_peer.specs.PeerTexts.{MaySay, order_in, reply_in};

use mj_base::{Frames, Name, NoMemory, Octets, Version};
use mj_client_cmd::{ClientCmd, ClientReply, read_reply, write_client};
use mj_frame::write_message;
use mj_greeting::broker_greeting;
use mj_handshake::{SocketType, write_ready};
use mj_worker_cmd::{Order, WorkerAct, WorkerCmd, read_order, write_worker};
use std::alloc::Global;

/// How a link begins.
#[tactic(auto, unfolding(crate::specs::PeerTexts::hello))]
pub(crate) fn hello(alloc: Global, kind: SocketType) -> Result<Octets, NoMemory>
    ensures { IfOk result (λ text. text ≡ PeerTexts.hello kind) }
{
    let mut text = Octets::new(alloc);
    text.push_all(&broker_greeting())?;
    write_ready(kind, &mut text)?;
    Ok(text)
}

/// A client's request.
#[tactic(auto, unfolding(crate::specs::PeerTexts::request_text))]
pub(crate) fn request_text(
    alloc: Global,
    version: Version,
    service: &Name,
    body: &Frames,
) -> Result<Octets, NoMemory>
    ensures { IfOk result (λ text. text ≡ PeerTexts.request_text version service.now body.now) }
{
    let cmd = ClientCmd {
        version,
        lead: leads(version),
        service: service.copy(),
        body: body.copy()?,
    };
    let message = write_client(alloc, &cmd)?;
    octets_of(alloc, &message)
}

/// A worker's command.
#[tactic(auto, using(crate::proofs::TextLemmas::may_say), unfolding(crate::specs::PeerTexts::said_text))]
pub(crate) fn said_text(alloc: Global, version: Version, act: WorkerAct) -> Result<Octets, NoMemory>
    requires { MaySay act version }
    ensures { IfOk result (λ text. text ≡ PeerTexts.said_text version act) }
{
    let cmd = WorkerCmd {
        version,
        lead: leads(version),
        act,
    };
    let message = write_worker(alloc, &cmd)?;
    octets_of(alloc, &message)
}

fn octets_of(alloc: Global, message: &Frames) -> Result<Octets, NoMemory>
    requires { 0 < length message.now }
    ensures { IfOk result (λ octets. octets ≡ message_octets message.now) }
{
    let mut octets = Octets::new(alloc);
    write_message(message, &mut octets)?;
    Ok(octets)
}

/// The reply to a client that this message is, or None where it is none.
#[tactic(auto, unfolding(crate::specs::PeerTexts::reply_in))]
pub(crate) fn reply_of(alloc: Global, message: &Frames) -> Result<Option<ClientReply>, NoMemory>
    ensures { IfOk result (λ reply. reply ≡ reply_in message.now) }
{
    read_reply(alloc, message)
}

/// The command to a worker that this message is, or None where it is none.
#[tactic(auto, unfolding(crate::specs::PeerTexts::order_in))]
pub(crate) fn order_of(alloc: Global, message: &Frames) -> Result<Option<Order>, NoMemory>
    ensures { IfOk result (λ order. order ≡ order_in message.now) }
{
    read_order(alloc, message)
}

/// Whether the empty frame stands first in what the ends write.
fn leads(version: Version) -> bool
    ensures { result ≡ PeerTexts.leads version }
{
    match version {
        Version::One => true,
        Version::Two => false,
    }
}

pub(crate) fn is_same_version(version: Version, other: Version) -> bool
    ensures { result ≡ PeerTexts.same_version version other }
{
    match (version, other) {
        (Version::One, Version::One) | (Version::Two, Version::Two) => true,
        (Version::One, Version::Two) | (Version::Two, Version::One) => false,
    }
}

/// The socket that a client is.
pub(crate) fn client_type(version: Version) -> SocketType
    ensures { result ≡ PeerTexts.client_type version }
{
    match version {
        Version::One => SocketType::Req,
        Version::Two => SocketType::Dealer,
    }
}
