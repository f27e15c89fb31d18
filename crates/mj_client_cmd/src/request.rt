ghost use Rattle.std.specs.Prelude.{◌≡◌, ◌≤◌, drop, MatchOption, IfOk, IfSome, IfNone};
ghost use Rattle.mj_client_cmd.specs.ClientGrammar.{IsClientRequest, IsLed};
ghost use Rattle.mj_client_cmd.specs.ClientReading.{client_of, request_rest};
ghost use Rattle.mj_client_cmd.specs.ClientWriting.{request_frames};
ghost use Rattle.mj_client_cmd.specs.declared.command.ClientCmd.{ClientCmd as Cmd};

use super::ClientCmd;
use super::parts::name_at;
use super::write::write_message;
use mj_base::{Frames, Name, NoMemory, Version};
use mj_opening::{Beginning, Party, is_same, read_opening};
use std::alloc::Global;

const REQUEST: &[u8] = b"\x01";

/// A request but for its body, and the place of the body's first frame.
#[derive(Drop)]
struct RequestHead {
    version: Version,
    lead: bool,
    service: Name,
    body: usize,
}

/// The request that this message is, or None where it is none.
pub fn read_client(alloc: Global, message: &Frames) -> Result<Option<ClientCmd>, NoMemory>
    ensures exact { IfOk result (λ cmd. cmd ≡ client_of message.now) }
    ensures found { IfOk result (λ r. IfSome r (λ cmd. IsClientRequest cmd message.now)) }
    ensures only { IfOk result (λ r. IfNone r ((cmd : Cmd) → IsClientRequest cmd message.now → ⊥)) }
{
    let Some(head) = request_head(message) else {
        return Ok(None);
    };
    let body = message.copy_from(head.body)?;
    Ok(Some(ClientCmd {
        version: head.version,
        lead: head.lead,
        service: head.service,
        body,
    }))
}

/// The frames of this request. In 0.1 the empty frame stands first.
pub fn write_client(alloc: Global, cmd: &ClientCmd) -> Result<Frames, NoMemory>
    requires { IsLed cmd.now.version cmd.now.lead }
    ensures exact { IfOk result (λ message. message ≡ request_frames cmd.now) }
    ensures related { IfOk result (λ message. IsClientRequest cmd.now message) }
    ensures read { IfOk result (λ message. client_of message ≡ Some cmd.now) }
{
    write_message(
        alloc,
        cmd.version,
        cmd.lead,
        REQUEST,
        &cmd.service,
        &cmd.body,
    )
}

fn request_head(message: &Frames) -> Option<RequestHead>
    ensures { MatchOption result (client_of message.now ≡ None) (λ head. client_of message.now ≡ Some (record { version = head.version; lead = head.lead; service = head.service; body = drop head.body message.now })) }
{
    let opening = read_opening(Party::Clients, message)?;
    let at = name_place(message, &opening)?;
    let service = name_at(message, at)?;
    Some(RequestHead {
        version: opening.version,
        lead: opening.lead,
        service,
        body: at + 1,
    })
}

fn name_place(message: &Frames, opening: &Beginning) -> Option<usize>
    requires { opening.now.next ≤ 2 }
    ensures { MatchOption result (request_rest opening.now.version (drop opening.now.next message.now) ≡ None) (λ at. (at ≤ 3) × (request_rest opening.now.version (drop opening.now.next message.now) ≡ Some (drop at message.now))) }
{
    match opening.version {
        Version::One => Some(opening.next),
        Version::Two => {
            let code = message.get(opening.next)?;
            if is_same(code, REQUEST) {
                Some(opening.next + 1)
            } else {
                None
            }
        }
    }
}
