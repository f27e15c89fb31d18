//! The bytes of a payload or a body to what they are.
ghost use Rattle.std.specs.Prelude.{◌≡◌, IfOk, IfSome, IfNone, List, ℕ, option_map};
ghost use Rattle.mj_tickets.specs.Payload.{IsBody, IsCommand};
ghost use Rattle.mj_tickets.specs.PayloadReading;
ghost use Rattle.mj_tickets.specs.PayloadReading.{body_in, cmd_in, accept_in, store_in, close_in, by_kind, frame_at, frames_in, kind_in, part_at};
ghost use Rattle.mj_tickets.specs.declared.command.TicketCmd.{TicketCmd as Cmd};

use super::TicketCmd;
use super::command::LONGEST;
use mj_base::{Frames, Name, NoMemory};
use mj_ids::TicketId;
use std::alloc::Global;

const ACCEPT: u8 = b'A';

const STORE: u8 = b'S';

const CLOSE: u8 = b'C';

/// An accept but for its body, and the bytes behind.
#[derive(Drop)]
struct AcceptHead<'a> {
    id: TicketId,
    service: Name,
    body: &'a [u8],
}

/// The command that these bytes are, or None where they are none: a payload is a command where it is used up exactly.
pub fn read_cmd(alloc: Global, octets: &[u8]) -> Result<Option<TicketCmd>, NoMemory>
    ensures exact { IfOk result (λ cmd. cmd ≡ cmd_in octets.now) }
    ensures found { IfOk result (λ r. IfSome r (λ cmd. IsCommand cmd octets.now)) }
    ensures only { IfOk result (λ r. IfNone r ((cmd : Cmd) → IsCommand cmd octets.now → ⊥)) }
{
    cmd_of(alloc, octets)
}

/// The body that these bytes are, or None where they aren't exactly one.
pub fn read_body(alloc: Global, octets: &[u8]) -> Result<Option<Frames>, NoMemory>
    ensures exact { IfOk result (λ body. body ≡ body_in octets.now) }
    ensures found { IfOk result (λ r. IfSome r (λ body. IsBody body octets.now)) }
    ensures only { IfOk result (λ r. IfNone r ((body : List (List ℕ)) → IsBody body octets.now → ⊥)) }
{
    body_of(alloc, octets)
}

#[tactic(auto, unfolding(crate::specs::PayloadReading::cmd_in))]
fn cmd_of(alloc: Global, octets: &[u8]) -> Result<Option<TicketCmd>, NoMemory>
    ensures { IfOk result (λ cmd. cmd ≡ cmd_in octets.now) }
{
    if octets.len() as u64 > LONGEST {
        return Ok(None);
    }
    kind_of(alloc, octets)
}

fn kind_of(alloc: Global, octets: &[u8]) -> Result<Option<TicketCmd>, NoMemory>
    ensures { IfOk result (λ cmd. cmd ≡ kind_in octets.now) }
{
    let Some((kind, rest)) = octets.split_first() else {
        return Ok(None);
    };
    cmd_by_kind(alloc, *kind, rest)
}

fn cmd_by_kind(alloc: Global, kind: u8, rest: &[u8]) -> Result<Option<TicketCmd>, NoMemory>
    ensures { IfOk result (λ cmd. cmd ≡ by_kind kind rest.now) }
{
    if kind == ACCEPT {
        accept_of(alloc, rest)
    } else if kind == STORE {
        store_of(alloc, rest)
    } else if kind == CLOSE {
        Ok(close_of(rest))
    } else {
        Ok(None)
    }
}

fn accept_of(alloc: Global, octets: &[u8]) -> Result<Option<TicketCmd>, NoMemory>
    ensures { IfOk result (λ cmd. cmd ≡ accept_in octets.now) }
{
    let Some(head) = accept_head(octets) else {
        return Ok(None);
    };
    let Some(body) = body_of(alloc, head.body)? else {
        return Ok(None);
    };
    Ok(Some(TicketCmd::Accept {
        id: head.id,
        service: head.service,
        body,
    }))
}

fn store_of(alloc: Global, octets: &[u8]) -> Result<Option<TicketCmd>, NoMemory>
    ensures { IfOk result (λ cmd. cmd ≡ store_in octets.now) }
{
    let Some((number, rest)) = octets.split_first_chunk::<8>() else {
        return Ok(None);
    };
    let Some(body) = body_of(alloc, rest)? else {
        return Ok(None);
    };
    Ok(Some(TicketCmd::Store {
        number: u64::from_be_bytes(*number),
        body,
    }))
}

fn close_of(octets: &[u8]) -> Option<TicketCmd>
    ensures { result ≡ close_in octets.now }
{
    if octets.len() != 8 {
        return None;
    }
    let number = octets.first_chunk::<8>()?;
    Some(TicketCmd::Close {
        number: u64::from_be_bytes(*number),
    })
}

fn accept_head(octets: &[u8]) -> Option<AcceptHead<'_>>
    ensures { option_map (λ head. record { id = head.id; service = head.service; body = head.body.now }) result ≡ PayloadReading.accepting_in octets.now }
{
    let (id, behind) = octets.split_first_chunk::<16>()?;
    let id = TicketId::from_octets(id)?;
    let (service, body) = cut_service(behind)?;
    Some(AcceptHead { id, service, body })
}

fn cut_service(octets: &[u8]) -> Option<(Name, &[u8])>
    ensures { option_map (λ p. (p.0, p.1.now)) result ≡ PayloadReading.service_in octets.now }
{
    let (size, rest) = octets.split_first()?;
    let (name, behind) = cut_at(rest, usize::from(*size))?;
    let service = Name::of(name)?;
    Some((service, behind))
}

#[tactic(auto, unfolding(crate::specs::PayloadReading::body_in))]
fn body_of(alloc: Global, octets: &[u8]) -> Result<Option<Frames>, NoMemory>
    ensures { IfOk result (λ body. body ≡ body_in octets.now) }
{
    let Some((count, rest)) = octets.split_first_chunk::<2>() else {
        return Ok(None);
    };
    frames_of(alloc, u16::from_be_bytes(*count), rest)
}

/// So many frames, and nothing behind them.
fn frames_of(alloc: Global, count: u16, octets: &[u8]) -> Result<Option<Frames>, NoMemory>
    ensures { IfOk result (λ frames. frames ≡ frames_in count octets.now) }
{
    let mut frames = Frames::new(alloc);
    let mut rest = octets;
    for _i in 0..count {
        let Some((frame, behind)) = cut_frame(rest) else {
            return Ok(None);
        };
        frames.push(frame)?;
        rest = behind;
    }
    if rest.is_empty() {
        Ok(Some(frames))
    } else {
        Ok(None)
    }
}

/// The frame that the bytes begin with, and the bytes behind it.
#[tactic(auto, unfolding(crate::specs::PayloadReading::frame_at))]
fn cut_frame(octets: &[u8]) -> Option<(&[u8], &[u8])>
    ensures { option_map (λ p. (p.0.now, p.1.now)) result ≡ frame_at octets.now }
{
    let (len, rest) = octets.split_first_chunk::<4>()?;
    cut_at(rest, u32::from_be_bytes(*len) as usize)
}

fn cut_at(octets: &[u8], size: usize) -> Option<(&[u8], &[u8])>
    ensures { option_map (λ p. (p.0.now, p.1.now)) result ≡ part_at size octets.now }
{
    if octets.len() < size {
        None
    } else {
        Some(octets.split_at(size))
    }
}
