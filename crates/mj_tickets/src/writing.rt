//! A command as the payload of a record.
ghost use Rattle.std.specs.Prelude.{◌≡◌, ◌<◌, ◌≤◌, ◌^◌, ◌∷◌, ◌++◌, OnOk, OnErr, Some, length, IsTrue};
ghost use Rattle.std.specs.List.{AllByRecursion};
ghost use Rattle.mj_base.specs.ServiceName.{is_service_name};
ghost use Rattle.mj_ids.specs.Ids.{IsId};
ghost use Rattle.mj_tickets.specs.Payload.{HasParts, IsCommand, Fits, FitsBody, IsShort, body_text, count_octets, frames_text, length_octets, number_octets, payload_of, Grows};
ghost use Rattle.mj_tickets.specs.PayloadReading.{cmd_in};

use super::TicketCmd;
use mj_base::{Frames, Name, NoMemory, Octets};
use mj_ids::TicketId;

/// Appends the payload of this command. Without memory nothing is appended.
pub fn write_cmd(cmd: &TicketCmd, out: &mut Octets) -> Result<(), NoMemory>
    requires { Fits cmd.now }
    ensures ok { OnOk result (out.new ≡ out.old ++ payload_of cmd.now) }
    ensures err { OnErr result (out.new ≡ out.old) }
    ensures command { OnOk result (IsCommand cmd.now (payload_of cmd.now)) }
    ensures read { OnOk result (cmd_in (payload_of cmd.now) ≡ Some cmd.now) }
{
    let start = out.len();
    let written = append_cmd(cmd, out);
    if written.is_err() {
        out.truncate(start);
    }
    written
}

fn append_cmd(cmd: &TicketCmd, out: &mut Octets) -> Result<(), NoMemory>
    requires { Fits cmd.now }
    ensures ok { OnOk result (out.new ≡ out.old ++ payload_of cmd.now) }
    ensures parts { OnOk result (HasParts cmd.now) }
    ensures err { OnErr result (Grows out.old out.new) }
{
    match cmd {
        TicketCmd::Accept { id, service, body } => {
            append_accept(id, service, out)?;
            append_body(body, out)
        }
        TicketCmd::Store { number, body } => {
            append_number(b'S', *number, out)?;
            append_body(body, out)
        }
        TicketCmd::Close { number } => append_number(b'C', *number, out),
    }
}

fn append_accept(id: &TicketId, service: &Name, out: &mut Octets) -> Result<(), NoMemory>
    ensures ok { OnOk result (out.new ≡ out.old ++ (65 ∷ id.now ++ length service.now ∷ service.now)) }
    ensures id { OnOk result (IsId id.now) }
    ensures named { OnOk result (IsTrue (is_service_name service.now)) }
    ensures err { OnErr result (Grows out.old out.new) }
{
    let name = service.as_slice();
    out.push_all(b"A")?;
    out.push_all(&id.octets())?;
    out.push_all(&[name.len() as u8])?;
    out.push_all(name)
}

#[tactic(auto, unfolding(crate::specs::Payload::number_octets))]
fn append_number(kind: u8, number: u64, out: &mut Octets) -> Result<(), NoMemory>
    ensures ok { OnOk result (out.new ≡ out.old ++ kind ∷ number_octets number) }
    ensures err { OnErr result (Grows out.old out.new) }
{
    out.push_all(&[kind])?;
    out.push_all(&number.to_be_bytes())
}

fn append_body(body: &Frames, out: &mut Octets) -> Result<(), NoMemory>
    requires { FitsBody body.now }
    ensures ok { OnOk result (out.new ≡ out.old ++ body_text body.now) }
    ensures err { OnErr result (Grows out.old out.new) }
{
    append_count(body.len() as u16, out)?;
    append_frames(body, out)
}

#[tactic(auto, unfolding(crate::specs::Payload::count_octets))]
fn append_count(count: u16, out: &mut Octets) -> Result<(), NoMemory>
    ensures ok { OnOk result (out.new ≡ out.old ++ count_octets count) }
    ensures err { OnErr result (Grows out.old out.new) }
{
    out.push_all(&count.to_be_bytes())
}

fn append_frames(body: &Frames, out: &mut Octets) -> Result<(), NoMemory>
    requires { AllByRecursion IsShort body.now }
    ensures ok { OnOk result (out.new ≡ out.old ++ frames_text body.now) }
    ensures err { OnErr result (Grows out.old out.new) }
{
    for i in 0..body.len() {
        if let Some(frame) = body.get(i) {
            append_frame(frame, out)?;
        }
    }
    Ok(())
}

#[tactic(auto, unfolding(crate::specs::Payload::length_octets))]
fn append_frame(frame: &[u8], out: &mut Octets) -> Result<(), NoMemory>
    requires { length frame.now < 2 ^ 32 }
    ensures ok { OnOk result (out.new ≡ out.old ++ (length_octets (length frame.now) ++ frame.now)) }
    ensures err { OnErr result (Grows out.old out.new) }
{
    out.push_all(&(frame.len() as u32).to_be_bytes())?;
    out.push_all(frame)
}
