//! What the broker writes: commands to workers, replies to clients, addresses.
ghost use Rattle.std.specs.Prelude.{◌≡◌, ◌<◌, ◌∷◌, length, IfOk};
ghost use Rattle.std.specs.Int.{to_be_bytes, w64};
ghost use Rattle.std.specs.Str.{bytes_eq};
ghost use Rattle.mj_frame.specs.FrameSpelling.{message_octets};
ghost use Rattle.mj_machine.specs.Sending.{address, order_text, reply_text};
ghost use Rattle.mj_machine.specs.StoreState;

use mj_base::{Frames, Name, NoMemory, Octets, Version};
use mj_client_cmd::{ClientReply, write_reply};
use mj_frame::write_message;
use mj_machine::Voice;
use mj_queue::{Origin, Request};
use mj_worker_cmd::{Order, OrderAct, write_order};
use std::alloc::Global;

/// The bytes of a command to a worker.
pub fn order_octets(alloc: Global, voice: Voice, act: OrderAct) -> Result<Octets, NoMemory>
    ensures { IfOk result (λ octets. octets ≡ order_text voice act) }
{
    let order = Order {
        version: voice.version,
        lead: voice.lead,
        act,
    };
    let message = write_order(alloc, &order)?;
    octets_of(alloc, &message)
}

/// The bytes of a reply to the client that asked.
pub fn reply_octets(
    alloc: Global,
    last: bool,
    request: &Request,
    body: Frames,
) -> Result<Octets, NoMemory>
    ensures { IfOk result (λ octets. octets ≡ reply_text last request.now body) }
{
    let reply = ClientReply {
        version: request.version,
        lead: request.lead,
        last,
        service: request.service.copy(),
        body,
    };
    let message = write_reply(alloc, &reply)?;
    octets_of(alloc, &message)
}

/// The request of this ticket, whose body is in the file.
pub fn ticket_request(alloc: Global, number: u64, service: &Name) -> Request
    ensures { result ≡ StoreState.ticket_request number service.now }
{
    Request {
        origin: Origin::Ticket(number),
        service: service.copy(),
        version: Version::One,
        lead: true,
        body: Frames::new(alloc),
    }
}

fn octets_of(alloc: Global, message: &Frames) -> Result<Octets, NoMemory>
    requires { 0 < length message.now }
    ensures { IfOk result (λ octets. octets ≡ message_octets message.now) }
{
    let mut octets = Octets::new(alloc);
    write_message(message, &mut octets)?;
    Ok(octets)
}

/// The address of who asks, as a worker sees it.
pub fn address_of(origin: Origin) -> [u8; 9]
    ensures { result ≡ address origin }
{
    match origin {
        Origin::Client(number) => address_with(b'C', number),
        Origin::Ticket(number) => address_with(b'T', number),
    }
}

fn address_with(kind: u8, number: u64) -> [u8; 9]
    ensures { result ≡ kind ∷ to_be_bytes w64 number }
{
    let n = number.to_be_bytes();
    [kind, n[0], n[1], n[2], n[3], n[4], n[5], n[6], n[7]]
}

/// Whether this is that address.
pub fn is_address(octets: &[u8], origin: Origin) -> bool
    ensures { result ≡ bytes_eq octets.now (address origin) }
{
    octets == address_of(origin).as_slice()
}
