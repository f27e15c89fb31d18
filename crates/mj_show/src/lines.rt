ghost use Rattle.std.specs.Prelude.{◌≡◌, IfOk, string_bytes};
ghost use Rattle.mj_client_cmd.specs.ClientReading.{client_of};
ghost use Rattle.mj_show.specs.Showing;
ghost use Rattle.mj_words.specs.Lines;
ghost use Rattle.mj_worker_cmd.specs.WorkerReading.{worker_of};

use mj_base::{Frames, NoMemory, Reason};
use mj_client_cmd::read_client;
use mj_handshake::SocketType;
use mj_wire::WireItem;
use mj_words::body_line;
use mj_worker_cmd::read_worker;
use std::alloc::Global;

/// The line of an item.
pub(crate) fn item_line(alloc: Global, item: &WireItem) -> Result<String, NoMemory>
    ensures { IfOk result (λ line. string_bytes line ≡ Showing.item_line item.now) }
{
    match item {
        WireItem::Accepted => Ok(String::from_str(alloc, "accepted\n")?),
        WireItem::Ready(kind) => ready_line(alloc, type_word(*kind)),
        WireItem::Message(message) => message_line(alloc, message),
        WireItem::Ended(reason, at) => end_line(alloc, reason_word(*reason), *at),
    }
}

fn ready_line(alloc: Global, kind: &str) -> Result<String, NoMemory>
    ensures { IfOk result (λ line. string_bytes line ≡ Showing.ready_line kind.now) }
{
    Ok(format!(in alloc; "ready {kind}\n")?)
}

fn type_word(kind: SocketType) -> &'static str
    ensures { result.now ≡ Showing.type_word kind }
{
    match kind {
        SocketType::Req => "REQ",
        SocketType::Dealer => "DEALER",
        SocketType::Router => "ROUTER",
    }
}

fn message_line(alloc: Global, message: &Frames) -> Result<String, NoMemory>
    ensures { IfOk result (λ line. string_bytes line ≡ Showing.message_line message.now) }
{
    let word = kind_word(alloc, message)?;
    body_line(alloc, word, message)
}

/// Whether it is a client's request, a worker's command, or neither.
fn kind_word(alloc: Global, message: &Frames) -> Result<&'static str, NoMemory>
    ensures { IfOk result (λ word. word.now ≡ Showing.kind_word (client_of message.now) (worker_of message.now)) }
{
    if read_client(alloc, message)?.is_some() {
        return Ok("message client");
    }
    if read_worker(alloc, message)?.is_some() {
        return Ok("message worker");
    }
    Ok("message other")
}

fn end_line(alloc: Global, reason: &str, at: u64) -> Result<String, NoMemory>
    ensures { IfOk result (λ line. string_bytes line ≡ Showing.end_line reason.now at) }
{
    Ok(format!(in alloc; "end {reason} {at}\n")?)
}

fn reason_word(reason: Reason) -> &'static str
    ensures { result.now ≡ Showing.reason_word reason }
{
    match reason {
        Reason::BadSignature => "bad-signature",
        Reason::BadVersion => "bad-version",
        Reason::BadMechanism => "bad-mechanism",
        Reason::BadFlags => "bad-flags",
        Reason::BadHandshake => "bad-handshake",
        Reason::BadSocketType => "bad-socket-type",
        Reason::TooMany => "too-many",
        Reason::TooLong => "too-long",
        Reason::Slow => "slow",
        Reason::QueueFull => "queue-full",
    }
}

/// The last line.
pub(crate) fn done_line(alloc: Global, count: u64) -> Result<String, NoMemory>
    ensures { IfOk result (λ line. string_bytes line ≡ Lines.done_line count) }
{
    Ok(format!(in alloc; "done {count}\n")?)
}
