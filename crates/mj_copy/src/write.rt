//! Messages as they are written.
ghost use Rattle.std.specs.Prelude.{◌≡◌, ◌++◌, IfOk, OnOk, OnErr};
ghost use Rattle.mj_copy.specs.Messages;
ghost use Rattle.mj_copy.specs.Messages.{number, octets_of};

use mj_base::{NoMemory, Octets};
use mj_frame::write_frame;
use std::alloc::Global;

/// The message that says the base of the sender's file.
pub fn base_octets(alloc: Global, base: u64) -> Result<Octets, NoMemory>
    ensures { IfOk result (λ octets. octets ≡ octets_of (Messages.Base base)) }
{
    let mut body = Octets::new(alloc);
    body.push_all(b"B")?;
    push_number(base, &mut body)?;
    framed(alloc, body.as_slice())
}

/// The message that says how many commands the sender's file has.
pub fn have_octets(alloc: Global, count: u64) -> Result<Octets, NoMemory>
    ensures { IfOk result (λ octets. octets ≡ octets_of (Messages.Have count)) }
{
    let mut body = Octets::new(alloc);
    body.push_all(b"H")?;
    push_number(count, &mut body)?;
    framed(alloc, body.as_slice())
}

/// The message that gives the payload with this offset in the sender's file.
pub fn send_octets(alloc: Global, at: u64, payload: &[u8]) -> Result<Octets, NoMemory>
    ensures { IfOk result (λ octets. octets ≡ octets_of (Messages.Send at payload.now)) }
{
    let mut body = Octets::new(alloc);
    body.push_all(b"S")?;
    push_number(at, &mut body)?;
    body.push_all(payload)?;
    framed(alloc, body.as_slice())
}

/// The message that says that there are no more.
pub fn end_octets(alloc: Global) -> Result<Octets, NoMemory>
    ensures { IfOk result (λ octets. octets ≡ octets_of Messages.End) }
{
    framed(alloc, b"E")
}

fn framed(alloc: Global, body: &[u8]) -> Result<Octets, NoMemory>
    ensures { IfOk result (λ octets. octets ≡ Messages.framed body.now) }
{
    let mut octets = Octets::new(alloc);
    write_frame(false, false, body, &mut octets)?;
    Ok(octets)
}

#[tactic(auto, unfolding(crate::specs::Messages::number))]
fn push_number(n: u64, octets: &mut Octets) -> Result<(), NoMemory>
    ensures { OnOk result (octets.new ≡ octets.old ++ number n) }
{
    octets.push_all(&n.to_be_bytes())
}
