use mj_base::{Frames, Limits, Name, Version};
use mj_queue::{AskFault, Hall, Origin, Request};
use std::alloc::Global;
use std::test::Fail;

/// A call, with what it must answer.
#[derive(Debug, Drop)]
enum Act {
    Wait(u64, &'static [u8]),
    Ask(Origin, &'static [u8]),
    Full(Origin, &'static [u8]),
    Pair(u64, Origin),
    NoPair,
    DropWorker(u64),
    DropClient(u64),
    DropTicket(u64),
    Has(&'static [u8], bool),
    Queued(u64),
}

/// A request with a body of one frame of three bytes, which weighs 35.
fn request_of(alloc: Global, origin: Origin, service: &[u8]) -> Result<Request, Fail> {
    let mut body = Frames::new(alloc);
    body.push(b"abc")?;
    Ok(Request {
        origin,
        service: Name::of(service).ok_or("no name")?,
        version: Version::One,
        lead: true,
        body,
    })
}

/// Whether the hall takes this request; where it doesn't it gives it back.
fn is_taken(alloc: Global, hall: &mut Hall, origin: Origin, service: &[u8]) -> Result<bool, Fail> {
    match hall.ask(request_of(alloc, origin, service)?) {
        Ok(()) => Ok(true),
        Err(AskFault::QueueFull(back)) => Ok(back.origin != origin),
        Err(AskFault::NoMemory(_)) => Err("no memory")?,
    }
}

fn is_pair(found: Option<(u64, Request)>, worker: u64, origin: Origin) -> bool {
    match found {
        Some((number, request)) => number == worker && request.origin == origin,
        None => false,
    }
}

/// Makes the call, and says whether it answered as it must.
fn is_as_told(alloc: Global, hall: &mut Hall, act: &Act) -> Result<bool, Fail> {
    match act {
        Act::Wait(conn, service) => hall.wait(*conn, &Name::of(service).ok_or("no name")?)?,
        Act::Ask(origin, service) => return is_taken(alloc, hall, *origin, service),
        Act::Full(origin, service) => return Ok(!is_taken(alloc, hall, *origin, service)?),
        Act::Pair(worker, origin) => return Ok(is_pair(hall.take_pair(), *worker, *origin)),
        Act::NoPair => return Ok(hall.take_pair().is_none()),
        Act::DropWorker(conn) => hall.drop_worker(*conn),
        Act::DropClient(conn) => hall.drop_client(*conn),
        Act::DropTicket(number) => hall.drop_ticket(*number),
        Act::Has(service, has) => {
            return Ok(hall.has_worker(&Name::of(service).ok_or("no name")?) == *has);
        }
        Act::Queued(number) => return Ok(hall.queued() == *number),
    }
    Ok(true)
}

#[test]
fn the_oldest_request_gets_the_worker_that_waits_longest(rt: HostRuntime) -> Result<(), Fail> {
    let mut hall = Hall::new(rt.alloc(), &Limits::standard())?;
    for act in &[
        Act::Has(b"a", false),
        Act::Ask(Origin::Client(5), b"a"),
        Act::Ask(Origin::Client(6), b"b"),
        Act::Ask(Origin::Ticket(1), b"a"),
        Act::Queued(2),
        Act::NoPair,
        Act::Wait(11, b"b"),
        Act::Wait(12, b"a"),
        Act::Wait(13, b"a"),
        Act::Pair(12, Origin::Client(5)),
        Act::Pair(11, Origin::Client(6)),
        Act::Pair(13, Origin::Ticket(1)),
        Act::NoPair,
        Act::DropWorker(12),
        Act::Has(b"a", true),
        Act::DropWorker(13),
        Act::Has(b"a", false),
        Act::Ask(Origin::Client(5), b"b"),
        Act::Ask(Origin::Client(7), b"b"),
        Act::Ask(Origin::Client(5), b"b"),
        Act::Ask(Origin::Ticket(2), b"b"),
        Act::DropClient(5),
        Act::DropTicket(2),
        Act::Queued(1),
        Act::Wait(11, b"b"),
        Act::Pair(11, Origin::Client(7)),
        Act::Queued(0),
    ] {
        assert!(rt; is_as_told(rt.alloc(), &mut hall, act)?, "{act:?}");
    }
    Ok(())
}

#[test]
fn one_client_request_may_wait_and_any_number_of_tickets(rt: HostRuntime) -> Result<(), Fail> {
    let limits = Limits {
        queued: 1,
        ..Limits::standard()
    };
    let mut hall = Hall::new(rt.alloc(), &limits)?;
    for act in &[
        Act::Ask(Origin::Ticket(1), b"a"),
        Act::Ask(Origin::Client(5), b"a"),
        Act::Full(Origin::Client(6), b"a"),
        Act::Ask(Origin::Ticket(2), b"a"),
        Act::Wait(11, b"b"),
        Act::Full(Origin::Client(6), b"a"),
        Act::Ask(Origin::Client(6), b"b"),
        Act::Queued(2),
    ] {
        assert!(rt; is_as_told(rt.alloc(), &mut hall, act)?, "{act:?}");
    }
    Ok(())
}

#[test]
fn two_requests_of_weight_35_fit_into_70(rt: HostRuntime) -> Result<(), Fail> {
    for (queued_weight, second) in [
        (70, Act::Ask(Origin::Client(6), b"a")),
        (69, Act::Full(Origin::Client(6), b"a")),
    ] {
        let limits = Limits {
            queued_weight,
            ..Limits::standard()
        };
        let mut hall = Hall::new(rt.alloc(), &limits)?;
        for act in &[
            Act::Ask(Origin::Ticket(1), b"a"),
            Act::Ask(Origin::Client(5), b"a"),
            second,
        ] {
            assert!(rt; is_as_told(rt.alloc(), &mut hall, act)?, "{act:?}");
        }
    }
    Ok(())
}
