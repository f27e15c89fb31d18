use mj_base::{Limits, Name};
use mj_chain::{Desk, Ends, Link, Node};
use mj_due::Leases;
use mj_hall::{Hall, Queued, Worker};
use mj_queue::{Request, Waiter};
use std::test::Fail;

/// A row, by its fields.
fn take_row<T>(row: Node<T>) -> (T, [Link; 3]) {
    let Node {
        value,
        all,
        service,
        origin,
    } = row;
    (value, [all, service, origin])
}

fn take_link(link: Link) -> [Option<usize>; 2] {
    let Link { prev, next } = link;
    [prev, next]
}

fn take_desk(desk: Desk) -> [Ends; 3] {
    let Desk {
        requests,
        waiting,
        busy,
    } = desk;
    [requests, waiting, busy]
}

fn take_ends(ends: Ends) -> [Option<usize>; 2] {
    let Ends { first, last } = ends;
    [first, last]
}

/// A request that is kept, by its fields.
fn take_queued(queued: Queued) -> (Request, u64, usize) {
    let Queued {
        request,
        label,
        desk,
    } = queued;
    (request, label, desk)
}

/// A worker that is kept, by its fields.
fn take_worker(worker: Worker) -> (Waiter, usize, bool) {
    let Worker { waiter, desk, busy } = worker;
    (waiter, desk, busy)
}

/// A worker of connection 3 that waits at desk 1, in a row alone.
fn row_of_worker() -> Result<Node<Worker>, Fail> {
    let alone = Link {
        prev: None,
        next: None,
    };
    Ok(Node {
        value: Worker {
            waiter: Waiter {
                worker: 3,
                service: Name::of(b"a").ok_or("no name")?,
            },
            desk: 1,
            busy: false,
        },
        all: alone,
        service: alone,
        origin: alone,
    })
}

#[test]
fn a_hall_and_leases_have_these_fields_alone(rt: HostRuntime) -> Result<(), Fail> {
    Hall::new(rt.alloc(), &Limits::standard()).take_apart();
    Leases::new(rt.alloc()).take_apart();
    let (worker, links) = take_row(row_of_worker()?);
    let (waiter, desk, busy) = take_worker(worker);
    assert!(rt; waiter.worker == 3 && desk == 1 && !busy);
    assert!(rt; take_link(links[0]) == [None, None]);
    Ok(())
}
