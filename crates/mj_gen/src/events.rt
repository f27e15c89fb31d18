//! One event of the generated load.
ghost use Rattle.std.specs.Prelude.{◌≡◌, ◌<◌, ◌^◌, IfOk};
ghost use Rattle.mj_base.specs.EventBounds.{IsTakenBy};
ghost use Rattle.mj_gen.specs.Generated;
ghost use Rattle.mj_gen.specs.ToCome;

use crate::load::{Place, Turn};
use crate::texts::{asks_for, files, hello, replies, serves, service};
use mj_base::{Event, NoMemory};
use std::alloc::Global;

/// The event at this place, behind which there is more.
#[tactic(auto, using(crate::proofs::Sizes::taken, crate::proofs::Places::place_small))]
pub fn next_event(alloc: Global, place: &Place) -> Result<Event, NoMemory>
    requires { ¬ (place.now.turn ≡ Turn.Over) }
    ensures event { IfOk result (λ event. event ≡ ToCome.event_of place.now.turn place.now.number) }
    ensures taken { IfOk result (λ event. IsTakenBy 8 event) }
{
    event_of(alloc, place.turn, place.number)
}

/// The event of a turn of this number.
fn event_of(alloc: Global, turn: Turn, number: u64) -> Result<Event, NoMemory>
    requires { number < 2 ^ 32 }
    ensures { IfOk result (λ event. event ≡ ToCome.event_of turn number) }
{
    let lane = number as u32;
    match turn {
        Turn::Open => Ok(Event::Open(lane)),
        Turn::Hello => Ok(Event::Bytes(lane, hello(alloc)?)),
        Turn::Greeted | Turn::Shaken => Ok(Event::Sent(lane)),
        Turn::Ask => asking(alloc, number),
        Turn::Serve => Ok(Event::Bytes(lane, serves(alloc, number)?)),
        Turn::Taken => Ok(Event::Sent(server(number))),
        Turn::Reply => replying(alloc, number),
        Turn::Answered => Ok(Event::Sent(asker(number))),
        Turn::File => Ok(Event::Bytes(4, files(alloc, number)?)),
        Turn::Filed => Ok(Event::Sent(4)),
        Turn::Over => Ok(Event::Stop),
    }
}

fn asking(alloc: Global, number: u64) -> Result<Event, NoMemory>
    ensures { IfOk result (λ event. event ≡ Generated.asking number) }
{
    let piece = asks_for(alloc, service(u64::from(server(number))), number)?;
    Ok(Event::Bytes(asker(number), piece))
}

fn replying(alloc: Global, number: u64) -> Result<Event, NoMemory>
    ensures { IfOk result (λ event. event ≡ Generated.replying number) }
{
    let lane = server(number);
    let piece = replies(alloc, u64::from(lane), u64::from(asker(number)) + 1, number)?;
    Ok(Event::Bytes(lane, piece))
}

/// The lane that asks the request of this number, 4 to 7.
fn asker(number: u64) -> u32
    ensures lane { result ≡ Generated.asker number }
    ensures few { result < 8 }
{
    (4 + number % 4) as u32
}

/// The worker that is asked, 0 to 3.
fn server(number: u64) -> u32
    ensures worker { result ≡ Generated.server number }
    ensures few { result < 4 }
{
    ((number / 4) % 4) as u32
}
