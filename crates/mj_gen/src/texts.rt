//! What the peers of the generated load send.
ghost use Rattle.std.specs.Prelude.{◌≡◌, ◌∷◌, ◌++◌, ◌<◌, [], true, IsTrue, codes, length, IfOk, OnOk, string_bytes};
ghost use Rattle.std.specs.Fmt.{decimal};
ghost use Rattle.std.specs.Int.{to_be_bytes, w64};
ghost use Rattle.mj_frame.specs.FrameSpelling.{message_octets};
ghost use Rattle.mj_gen.specs.Generated;
ghost use Rattle.mj_gen.specs.Texts.{MaySay};
ghost use Rattle.mj_base.specs.ServiceName.{is_service_name};
ghost use Rattle.mj_machine.specs.Sending.{address};
ghost use Rattle.mj_queue.specs.declared.request.Origin.TheVariants as origin;
ghost use Rattle.mj_worker_cmd.specs.declared.command.WorkerAct.TheVariants as said;

use mj_base::{Frames, Name, NoMemory, Octets, Version};
use mj_client_cmd::{ClientCmd, write_client};
use mj_frame::write_message;
use mj_greeting::broker_greeting;
use mj_handshake::{SocketType, write_ready};
use mj_worker_cmd::{WorkerAct, WorkerCmd, write_worker};
use std::alloc::Global;

/// How a peer's stream begins.
pub fn hello(alloc: Global) -> Result<Octets, NoMemory>
    ensures { IfOk result (λ text. text ≡ Generated.hello) }
{
    let mut text = Octets::new(alloc);
    text.push_all(&broker_greeting())?;
    write_ready(SocketType::Dealer, &mut text)?;
    Ok(text)
}

/// A client's request of this service, whose body has one frame, the number.
pub fn asks_for(alloc: Global, service: Name, number: u64) -> Result<Octets, NoMemory>
    ensures { IfOk result (λ text. text ≡ Generated.asks service (decimal number ∷ [])) }
{
    let mut body = Frames::new(alloc);
    push_number(alloc, number, &mut body)?;
    asks(alloc, service, body)
}

/// The same for the ticket of this number.
pub fn files(alloc: Global, number: u64) -> Result<Octets, NoMemory>
    ensures { IfOk result (λ text. text ≡ Generated.asks (codes "titanic.request") (codes "later" ∷ decimal number ∷ [])) }
{
    let mut body = Frames::new(alloc);
    body.push(b"later")?;
    push_number(alloc, number, &mut body)?;
    asks(alloc, name_of(b"titanic.request"), body)
}

fn push_number(alloc: Global, number: u64, body: &mut Frames) -> Result<(), NoMemory>
    ensures { OnOk result (body.new ≡ body.old ++ decimal number ∷ []) }
{
    let text = format!(in alloc; "{number}")?;
    body.push(text.as_bytes())
}

fn asks(alloc: Global, service: Name, body: Frames) -> Result<Octets, NoMemory>
    ensures { IfOk result (λ text. text ≡ Generated.asks service body) }
{
    let cmd = ClientCmd {
        version: Version::One,
        lead: true,
        service,
        body,
    };
    let message = write_client(alloc, &cmd)?;
    octets_of(alloc, &message)
}

/// What the worker of this number, 0 to 3, says first.
pub fn serves(alloc: Global, worker: u64) -> Result<Octets, NoMemory>
    ensures { IfOk result (λ text. text ≡ Generated.says (Generated.speaks worker) (said.Ready (Generated.service worker))) }
{
    says(alloc, speaks(worker), WorkerAct::Ready(service(worker)))
}

/// The worker's answer to who is connected as this number: the number of the request.
pub fn replies(alloc: Global, worker: u64, asker: u64, number: u64) -> Result<Octets, NoMemory>
    ensures { IfOk result (λ text. text ≡ Generated.says (Generated.speaks worker) (said.Reply true (address (origin.Client asker)) (decimal number ∷ []))) }
{
    let address = Octets::copy_of(alloc, &address_of(asker))?;
    let mut body = Frames::new(alloc);
    push_number(alloc, number, &mut body)?;
    let act = WorkerAct::Reply {
        last: true,
        address,
        body,
    };
    says(alloc, speaks(worker), act)
}

fn says(alloc: Global, version: Version, act: WorkerAct) -> Result<Octets, NoMemory>
    requires { MaySay act }
    ensures { IfOk result (λ text. text ≡ Generated.says version act) }
{
    let cmd = WorkerCmd {
        version,
        lead: leads(version),
        act,
    };
    let message = write_worker(alloc, &cmd)?;
    octets_of(alloc, &message)
}

fn octets_of(alloc: Global, message: &Frames) -> Result<Octets, NoMemory>
    requires { 0 < length message.now }
    ensures { IfOk result (λ octets. octets ≡ message_octets message.now) }
{
    let mut octets = Octets::new(alloc);
    write_message(message, &mut octets)?;
    Ok(octets)
}

/// Whether the empty frame stands first.
fn leads(version: Version) -> bool
    ensures { result ≡ Generated.leads version }
{
    match version {
        Version::One => true,
        Version::Two => false,
    }
}

fn speaks(worker: u64) -> Version
    ensures { result ≡ Generated.speaks worker }
{
    if worker % 2 == 0 {
        Version::One
    } else {
        Version::Two
    }
}

/// The service of the worker of this number, 0 to 3.
pub fn service(worker: u64) -> Name
    ensures { result ≡ Generated.service worker }
{
    match worker {
        0 => name_of(b"s0"),
        1 => name_of(b"s1"),
        2 => name_of(b"s2"),
        _ => name_of(b"s3"),
    }
}

fn name_of(bytes: &[u8]) -> Name
    requires { IsTrue (is_service_name bytes.now) }
    ensures { result ≡ bytes.now }
{
    match Name::of(bytes) {
        Some(name) => name,
        None => unreachable!(),
    }
}

/// The address of the client that is connected as this number.
fn address_of(number: u64) -> [u8; 9]
    ensures { result ≡ address (origin.Client number) }
{
    let n = number.to_be_bytes();
    [b'C', n[0], n[1], n[2], n[3], n[4], n[5], n[6], n[7]]
}
