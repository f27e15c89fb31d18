ghost use Rattle.std.specs.Prelude.{◌≡◌, ◌++◌, IfOk, OnOk, IsTrue};
ghost use Rattle.mj_base.specs.ServiceName.{is_service_name};
ghost use Rattle.mj_client_cmd.specs.ClientWriting.{code_frames, message_frames};

use mj_base::{Frames, Name, NoMemory, Version};
use mj_opening::{Party, push_opening};
use std::alloc::Global;

/// The frames of a request or a reply; its code stands in 0.2 alone.
pub(crate) fn write_message(
    alloc: Global,
    version: Version,
    lead: bool,
    code: &[u8],
    service: &Name,
    body: &Frames,
) -> Result<Frames, NoMemory>
    ensures frames { IfOk result (λ message. message ≡ message_frames version lead code.now service.now body.now) }
    ensures named { OnOk result (IsTrue (is_service_name service.now)) }
{
    let mut message = Frames::new(alloc);
    push_opening(Party::Clients, version, lead, &mut message)?;
    push_code(version, code, &mut message)?;
    message.push(service.as_slice())?;
    message.append_from(body, 0)?;
    Ok(message)
}

fn push_code(version: Version, code: &[u8], out: &mut Frames) -> Result<(), NoMemory>
    ensures { OnOk result (out.new ≡ out.old ++ code_frames version code.now) }
{
    match version {
        Version::One => Ok(()),
        Version::Two => out.push(code),
    }
}
