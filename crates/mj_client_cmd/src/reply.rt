ghost use Rattle.std.specs.Prelude.{◌≡◌, ◌≤◌, drop, MatchOption, IfOk, IfSome, IfNone};
ghost use Rattle.mj_client_cmd.specs.ClientGrammar.{IsClientReply, IsReplyKind};
ghost use Rattle.mj_client_cmd.specs.ClientReading;
ghost use Rattle.mj_client_cmd.specs.ClientReading.{reply_of, reply_rest};
ghost use Rattle.mj_client_cmd.specs.ClientWriting.{reply_frames, reply_code};
ghost use Rattle.mj_client_cmd.specs.declared.command.ClientReply.{ClientReply as Reply};

use super::ClientReply;
use super::parts::name_at;
use super::write::write_message;
use mj_base::{Frames, Name, NoMemory, Version};
use mj_opening::{Beginning, Party, is_same, read_opening};
use std::alloc::Global;

const PARTIAL: &[u8] = b"\x02";

const FINAL: &[u8] = b"\x03";

/// A reply but for its body, and the place of the body's first frame.
#[derive(Drop)]
struct ReplyHead {
    version: Version,
    lead: bool,
    last: bool,
    service: Name,
    body: usize,
}

/// Whether a reply is the last, and the place of its service name.
#[derive(Drop)]
struct ReplyKind {
    last: bool,
    name: usize,
}

/// The reply that this message is, or None where it is none.
pub fn read_reply(alloc: Global, message: &Frames) -> Result<Option<ClientReply>, NoMemory>
    ensures exact { IfOk result (λ reply. reply ≡ reply_of message.now) }
    ensures found { IfOk result (λ r. IfSome r (λ reply. IsClientReply reply message.now)) }
    ensures only { IfOk result (λ r. IfNone r ((reply : Reply) → IsClientReply reply message.now → ⊥)) }
{
    let Some(head) = reply_head(message) else {
        return Ok(None);
    };
    let body = message.copy_from(head.body)?;
    Ok(Some(ClientReply {
        version: head.version,
        lead: head.lead,
        last: head.last,
        service: head.service,
        body,
    }))
}

/// The frames of this reply. Where `is_writable` says that its version has such a reply, they are that reply's and
/// are read back as it.
pub fn write_reply(alloc: Global, reply: &ClientReply) -> Result<Frames, NoMemory>
    ensures exact { IfOk result (λ message. message ≡ reply_frames reply.now) }
    ensures related { IsReplyKind reply.now.version reply.now.lead reply.now.last → IfOk result (λ message. IsClientReply reply.now message) }
    ensures read { IsReplyKind reply.now.version reply.now.lead reply.now.last → IfOk result (λ message. reply_of message ≡ Some reply.now) }
{
    let code = code_of(reply.last);
    write_message(
        alloc,
        reply.version,
        reply.lead,
        code,
        &reply.service,
        &reply.body,
    )
}

fn reply_head(message: &Frames) -> Option<ReplyHead>
    ensures { MatchOption result (reply_of message.now ≡ None) (λ head. reply_of message.now ≡ Some (record { version = head.version; lead = head.lead; last = head.last; service = head.service; body = drop head.body message.now })) }
{
    let opening = read_opening(Party::Clients, message)?;
    let kind = reply_kind(message, &opening)?;
    let service = name_at(message, kind.name)?;
    Some(ReplyHead {
        version: opening.version,
        lead: opening.lead,
        last: kind.last,
        service,
        body: kind.name + 1,
    })
}

fn reply_kind(message: &Frames, opening: &Beginning) -> Option<ReplyKind>
    requires { opening.now.next ≤ 2 }
    ensures { MatchOption result (reply_rest opening.now.version (drop opening.now.next message.now) ≡ None) (λ kind. (kind.name ≤ 3) × (reply_rest opening.now.version (drop opening.now.next message.now) ≡ Some (kind.last, drop kind.name message.now))) }
{
    match opening.version {
        Version::One => Some(ReplyKind {
            last: true,
            name: opening.next,
        }),
        Version::Two => {
            let last = last_of(message.get(opening.next)?)?;
            Some(ReplyKind {
                last,
                name: opening.next + 1,
            })
        }
    }
}

fn last_of(code: &[u8]) -> Option<bool>
    ensures { result ≡ ClientReading.last_of code.now }
{
    if is_same(code, PARTIAL) {
        Some(false)
    } else if is_same(code, FINAL) {
        Some(true)
    } else {
        None
    }
}

fn code_of(last: bool) -> &'static [u8]
    ensures { result.now ≡ reply_code last }
{
    if last { FINAL } else { PARTIAL }
}
