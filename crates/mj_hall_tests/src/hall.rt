ghost use Rattle.std.specs.Prelude.{◌≡◌, ◌<◌};

use mj_base::{Frames, Limits, Name, Version};
use mj_counted::Steps;
use mj_queue::{Offer, Origin, Request};
use std::alloc::Global;
use std::marker::Brand;
use std::sync::ledger::{Blank, Ledger};
use std::test::Fail;

/// A call of both halls.
#[derive(Debug, Drop)]
enum Act {
    Wait(u64, &'static [u8]),
    Ask(Origin, &'static [u8]),
    Queue(Origin, &'static [u8]),
    Offer,
    Pair,
    DropWorker(u64),
    DropClient(u64),
    DropTicket(u64),
    DropTickets,
    Has(&'static [u8]),
    Queued,
}

/// The flat hall and the one over rows.
#[derive(Drop)]
struct Both {
    flat: mj_queue::Hall,
    counted: mj_hall::Hall,
}

fn name_of(bytes: &[u8]) -> Result<Name, Fail> {
    Ok(Name::of(bytes).ok_or("no name")?)
}

/// A request with a body of one frame of three bytes, which weighs 35.
fn request_of(alloc: Global, origin: Origin, service: &[u8]) -> Result<Request, Fail> {
    let mut body = Frames::new(alloc);
    body.push(b"abc")?;
    Ok(Request {
        origin,
        service: name_of(service)?,
        version: Version::One,
        lead: true,
        body,
    })
}

fn told(pair: Option<(u64, Request)>) -> Option<(u64, Origin)> {
    pair.map(|pair| (pair.0, pair.1.origin))
}

fn offered(offer: Option<Offer>) -> Option<(u64, Origin)> {
    offer.map(|offer| (offer.worker, offer.origin))
}

/// Puts a request to both, and answers whether both take it or neither.
fn asks_alike<L: Ledger>(
    alloc: Global,
    both: &mut Both,
    origin: Origin,
    service: &[u8],
    steps: &mut Steps<L>,
) -> Result<bool, Fail> {
    let flat = both.flat.ask(request_of(alloc, origin, service)?);
    let counted = both.counted.ask(request_of(alloc, origin, service)?, steps);
    Ok(flat.is_ok() == counted.is_ok())
}

/// Calls both, and answers whether they answer alike.
fn acts_alike<L: Ledger>(
    alloc: Global,
    both: &mut Both,
    act: &Act,
    steps: &mut Steps<L>,
) -> Result<bool, Fail> {
    match act {
        Act::Wait(conn, service) => {
            let name = name_of(service)?;
            both.flat.wait(*conn, &name)?;
            both.counted.wait(*conn, &name, steps)?;
            Ok(true)
        }
        Act::Ask(origin, service) => asks_alike(alloc, both, *origin, service, steps),
        Act::Queue(origin, service) => {
            both.flat.queue(request_of(alloc, *origin, service)?)?;
            both.counted
                .queue(request_of(alloc, *origin, service)?, steps)?;
            Ok(true)
        }
        Act::Has(service) => {
            let name = name_of(service)?;
            Ok(both.flat.has_worker(&name) == both.counted.has_worker(&name, steps))
        }
        other => Ok(leaves_alike(both, other, steps)),
    }
}

/// The same of the calls that want no memory.
fn leaves_alike<L: Ledger>(both: &mut Both, act: &Act, steps: &mut Steps<L>) -> bool {
    match act {
        Act::Offer => offered(both.flat.offer()) == offered(both.counted.offer(steps)),
        Act::Pair => told(both.flat.take_pair()) == told(both.counted.take_pair(steps)),
        Act::Queued => both.flat.queued() == both.counted.queued(),
        other => {
            drops(both, other, steps);
            both.flat.has_pair() == both.counted.has_pair(steps)
        }
    }
}

fn drops<L: Ledger>(both: &mut Both, act: &Act, steps: &mut Steps<L>) {
    match act {
        Act::DropWorker(conn) => {
            both.flat.drop_worker(*conn);
            both.counted.drop_worker(*conn, steps);
        }
        Act::DropClient(conn) => {
            both.flat.drop_client(*conn);
            both.counted.drop_client(*conn, steps);
        }
        Act::DropTicket(number) => {
            both.flat.drop_ticket(*number);
            both.counted.drop_ticket(*number, steps);
        }
        Act::DropTickets => {
            both.flat.drop_tickets();
            both.counted.drop_tickets(steps);
        }
        _ => {}
    }
}

/// The number of the first act at which the two differ, where the first request has this label; or how many acts
/// there are.
fn alike_until<L: Ledger>(
    alloc: Global,
    limits: &Limits,
    label: u64,
    acts: &[Act],
    blank: Blank,
) -> Result<usize, Fail>
    requires name { blank.name ≡ L.name }
    requires parts { (blank.parts ≡ L.parts) × (0 < L.parts) }
{
    let mut steps = Steps::<L>::new(blank);
    let mut both = Both {
        flat: mj_queue::Hall::new(alloc, limits)?,
        counted: mj_hall::Hall::labelled_from(alloc, limits, label),
    };
    for at in 0..acts.len() {
        if !acts_alike(alloc, &mut both, &acts[at], &mut steps)? {
            return Ok(at);
        }
    }
    Ok(acts.len())
}

#[test]
fn both_halls_answer_alike(rt: HostRuntime) -> Result<(), Fail> {
    let acts = [
        Act::Has(b"a"),
        Act::Ask(Origin::Client(5), b"a"),
        Act::Ask(Origin::Client(6), b"b"),
        Act::Ask(Origin::Ticket(1), b"a"),
        Act::Queued,
        Act::Pair,
        Act::Wait(11, b"b"),
        Act::Offer,
        Act::Wait(12, b"a"),
        Act::Wait(13, b"a"),
        Act::Pair,
        Act::Pair,
        Act::Pair,
        Act::Pair,
        Act::DropWorker(12),
        Act::Has(b"a"),
        Act::DropWorker(13),
        Act::Has(b"a"),
        Act::Ask(Origin::Client(5), b"b"),
        Act::Ask(Origin::Client(7), b"b"),
        Act::Ask(Origin::Client(5), b"b"),
        Act::Queue(Origin::Ticket(2), b"b"),
        Act::Queue(Origin::Ticket(3), b"a"),
        Act::DropClient(5),
        Act::DropTicket(2),
        Act::Queued,
        Act::Wait(11, b"b"),
        Act::Wait(11, b"a"),
        Act::Has(b"b"),
        Act::Offer,
        Act::DropTickets,
        Act::Wait(11, b"b"),
        Act::Pair,
        Act::Queued,
    ];
    let until = alike_until::<Brand>(rt.alloc(), &Limits::standard(), 0, &acts, Blank::new(1))?;
    assert!(rt; until == acts.len(), "{until}");
    Ok(())
}

#[test]
fn both_halls_refuse_alike(rt: HostRuntime) -> Result<(), Fail> {
    let acts = [
        Act::Ask(Origin::Ticket(1), b"a"),
        Act::Ask(Origin::Client(5), b"a"),
        Act::Ask(Origin::Client(6), b"a"),
        Act::Ask(Origin::Ticket(2), b"a"),
        Act::Wait(11, b"b"),
        Act::Ask(Origin::Client(6), b"a"),
        Act::Ask(Origin::Client(6), b"b"),
        Act::Queued,
    ];
    let limits = Limits {
        queued: 1,
        ..Limits::standard()
    };
    let until = alike_until::<Brand>(rt.alloc(), &limits, 0, &acts, Blank::new(1))?;
    assert!(rt; until == acts.len(), "{until}");
    Ok(())
}

#[test]
fn the_order_is_kept_where_labels_end(rt: HostRuntime) -> Result<(), Fail> {
    let acts = [
        Act::Wait(11, b"b"),
        Act::Ask(Origin::Client(5), b"a"),
        Act::Ask(Origin::Client(6), b"b"),
        Act::Ask(Origin::Client(5), b"b"),
        Act::Ask(Origin::Ticket(1), b"a"),
        Act::Ask(Origin::Client(7), b"b"),
        Act::Wait(12, b"a"),
        Act::Wait(13, b"a"),
        Act::Pair,
        Act::Pair,
        Act::Wait(11, b"b"),
        Act::Pair,
        Act::Pair,
        Act::Wait(11, b"b"),
        Act::Pair,
        Act::Queued,
    ];
    let label = u64::MAX - 2;
    let until = alike_until::<Brand>(rt.alloc(), &Limits::standard(), label, &acts, Blank::new(1))?;
    assert!(rt; until == acts.len(), "{until}");
    Ok(())
}
