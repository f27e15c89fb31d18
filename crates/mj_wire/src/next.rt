ghost use Rattle.std.specs.Prelude.{◌≡◌, ◌+◌, ◌≤◌, ◌^◌, ◌<◌, length, take};
ghost use Rattle.mj_handshake.specs.ReadyGrammar.{ready_of};
ghost use Rattle.mj_wire.specs.NextReading;

use super::place::{Place, Stage};
use mj_base::{Limits, Reason};
use mj_frame::{Head, HeadAnswer, read_head};
use mj_greeting::greeting_fault;
use mj_handshake::{SocketType, read_ready};

/// How many bytes a greeting has.
const GREETING: usize = 64;

/// What the bytes at a place begin with. Sizes are counted from the place.
#[derive(Clone, Copy)]
pub enum Next {
    /// Nothing whole, and nothing wrong so far.
    Wait,
    /// A fault, this far from the place.
    Fault(Reason, u64),
    /// An accepted greeting.
    Greeting,
    /// READY, and where it ends.
    Ready(SocketType, usize),
    /// Another command, and where it ends.
    Command(usize),
    /// A message frame: whether more follow, where its body starts, and where it ends.
    Frame(bool, usize, usize),
}

/// Reads what stands next, and takes nothing.
#[tactic(auto, unfolding(crate::specs::NextReading::next_of))]
pub fn next_of(limits: &Limits, place: &Place, octets: &[u8]) -> Next
    ensures { result ≡ NextReading.next_of limits.now place.now octets.now }
{
    match place.stage {
        Stage::Greeting => greeting_next(octets),
        Stage::Handshake | Stage::Open => frame_next(limits, place, octets),
        Stage::Ended => Next::Wait,
    }
}

fn greeting_next(octets: &[u8]) -> Next
    ensures { result ≡ NextReading.greeting_next octets.now }
{
    match greeting_fault(front_of(octets)) {
        Some(fault) => Next::Fault(fault.reason, fault.at),
        None => whole_greeting(octets),
    }
}

fn whole_greeting(octets: &[u8]) -> Next
    ensures { result ≡ NextReading.whole_greeting octets.now }
{
    if octets.len() < GREETING {
        Next::Wait
    } else {
        Next::Greeting
    }
}

fn front_of(octets: &[u8]) -> &[u8]
    ensures front { result.now ≡ take 64 octets.now }
    ensures len { length result.now ≤ 64 }
{
    if octets.len() < GREETING {
        octets
    } else {
        octets.split_at(GREETING).0
    }
}

#[tactic(auto, unfolding(crate::specs::NextReading::frame_next))]
fn frame_next(limits: &Limits, place: &Place, octets: &[u8]) -> Next
    ensures { result ≡ NextReading.frame_next limits.now place.now octets.now }
{
    match read_head(octets) {
        HeadAnswer::BadFlags => Next::Fault(Reason::BadFlags, 0),
        HeadAnswer::Short => short_next(place.stage, octets),
        HeadAnswer::Head(head, used) => {
            headed_next(limits, place, head, used, octets.split_at(used).1)
        }
    }
}

fn short_next(stage: Stage, octets: &[u8]) -> Next
    ensures { result ≡ NextReading.short_next stage octets.now }
{
    if in_handshake(stage) && starts_message(octets) {
        Next::Fault(Reason::BadHandshake, 0)
    } else {
        Next::Wait
    }
}

fn in_handshake(stage: Stage) -> bool
    ensures { result ≡ NextReading.in_handshake stage }
{
    match stage {
        Stage::Handshake => true,
        _ => false,
    }
}

/// Whether a flags byte is there that is no command's.
fn starts_message(octets: &[u8]) -> bool
    ensures { result ≡ NextReading.starts_message octets.now }
{
    match octets.split_first() {
        None => false,
        Some((flags, _)) => *flags < 4,
    }
}

fn headed_next(limits: &Limits, place: &Place, head: Head, used: usize, rest: &[u8]) -> Next
    requires { used ≤ 9 }
    ensures { result ≡ NextReading.headed_next limits.now place.now head used rest.now }
{
    match head_fault(limits, place, head) {
        Some(reason) => Next::Fault(reason, 0),
        None => whole_next(place.stage, head, used, rest),
    }
}

/// The faults that a head has by itself, in the order in which they count.
fn head_fault(limits: &Limits, place: &Place, head: Head) -> Option<Reason>
    ensures { result ≡ NextReading.head_fault limits.now place.now head }
{
    if in_handshake(place.stage) && !head.command {
        Some(Reason::BadHandshake)
    } else if !head.command && place.group.len() >= limits.frames as usize {
        Some(Reason::TooMany)
    } else if is_too_long(limits, place.group.octets(), head) {
        Some(Reason::TooLong)
    } else {
        None
    }
}

fn is_too_long(limits: &Limits, octets: u64, head: Head) -> bool
    ensures { result ≡ NextReading.is_too_long limits.now octets head }
{
    if head.command {
        head.size > limits.command
    } else {
        head.size > limits.message || octets > limits.message - head.size
    }
}

fn whole_next(stage: Stage, head: Head, used: usize, rest: &[u8]) -> Next
    requires { used ≤ 9 }
    ensures { result ≡ NextReading.whole_next stage head used rest.now }
{
    if (rest.len() as u64) < head.size {
        Next::Wait
    } else {
        body_next(stage, head, used, rest.split_at(head.size as usize).0)
    }
}

fn body_next(stage: Stage, head: Head, used: usize, body: &[u8]) -> Next
    requires { used + length body.now < 2 ^ 64 }
    ensures { result ≡ NextReading.body_next stage head used body.now }
{
    let end = used + body.len();
    if in_handshake(stage) {
        ready_next(body, end)
    } else if head.command {
        Next::Command(end)
    } else {
        Next::Frame(head.more, used, end)
    }
}

fn ready_next(body: &[u8], end: usize) -> Next
    ensures { result ≡ NextReading.ready_next (ready_of body.now) end }
{
    match read_ready(body) {
        Ok(kind) => Next::Ready(kind, end),
        Err(reason) => Next::Fault(reason, 0),
    }
}
