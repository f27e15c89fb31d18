//! Tickets come and go.
use crate::made::{accept, apply, id};
use mj_ids::TicketId;
use mj_tickets::{
    ApplyFault, Place, TicketCmd, TicketState, Tickets, accepts_follow_the_base,
    open_tickets_are_numbered, places_are_of_bodies, read_cmd,
};
use std::alloc::Global;
use std::test::Fail;

/// Whether this payload is a command that may follow.
fn applies(alloc: Global, tickets: &mut Tickets, octets: &[u8], at: u32) -> Result<bool, Fail> {
    let cmd = read_cmd(alloc, octets)?.ok_or("a command")?;
    Ok(apply(tickets, &cmd, at) == Ok(()))
}

const ACCEPT: &[u8] =
    b"A\xe5\x6a\x5d\x40\x28\xbd\x86\x53\x80\0\0\0\0\0\0\x01\x04echo\0\x01\0\0\0\x02hi";

const STORE: &[u8] = b"S\0\0\0\0\0\0\0\x01\0\x01\0\0\0\x03hi!";

const CLOSE: &[u8] = b"C\0\0\0\0\0\0\0\x01";

#[test]
fn a_ticket_is_kept_answered_and_closed(rt: HostRuntime) -> Result<(), Fail> {
    let mut tickets = Tickets::new(rt.alloc(), 1);
    tickets.reserve()?;
    let rows: [(&[u8], u32, bool, TicketState); 6] = [
        (STORE, 21, false, TicketState::Unknown),
        (ACCEPT, 21, true, TicketState::Pending),
        (ACCEPT, 56, false, TicketState::Pending),
        (STORE, 56, true, TicketState::Stored),
        (STORE, 79, false, TicketState::Stored),
        (CLOSE, 79, true, TicketState::Unknown),
    ];
    for (octets, at, lawful, state) in rows {
        let body = tickets.body_place(1);
        assert!(rt; body.is_none() || body == Some(Place { at: 43, len: 8 }));
        assert!(rt;
            applies(rt.alloc(), &mut tickets, octets, at)? == lawful,
            "{octets:?}"
        );
        assert!(rt; tickets.state(&id(1)) == state, "{octets:?}");
        let reply = tickets.reply_place(1);
        let stands = Place { at: 65, len: 9 };
        assert!(rt;
            reply
                == if state == TicketState::Stored {
                    Some(stands)
                } else {
                    None
                }
        );
    }
    assert!(rt; tickets.next() == 2);
    assert!(rt; tickets.open() == 0);
    Ok(())
}

#[test]
fn a_ticket_is_known_by_its_whole_id(rt: HostRuntime) -> Result<(), Fail> {
    let mut tickets = Tickets::new(rt.alloc(), 1);
    assert!(rt; applies(rt.alloc(), &mut tickets, ACCEPT, 21)?);
    let other = TicketId::of(&[1; 32], 1);
    assert!(rt; tickets.state(&other) == TicketState::Unknown);
    assert!(rt; tickets.state(&id(1)) == TicketState::Pending);
    assert!(rt; tickets.body_place(1) == Some(Place { at: 43, len: 8 }));
    Ok(())
}

/// Five pending tickets, of which the second is closed and the third answered.
fn four(alloc: Global) -> Result<Tickets, Fail> {
    let mut tickets = Tickets::new(alloc, 1);
    for number in 1..6u32 {
        let _ = apply(&mut tickets, &accept(alloc, number)?, 21);
    }
    applies(alloc, &mut tickets, b"C\0\0\0\0\0\0\0\x02", 21)?;
    applies(alloc, &mut tickets, b"S\0\0\0\0\0\0\0\x03\0\0", 21)?;
    Ok(tickets)
}

fn pending_number(tickets: &Tickets, after: u64) -> Option<u64> {
    match tickets.pending(after) {
        Some((number, service)) => {
            if service.as_slice() == b"later".as_slice() {
                Some(number)
            } else {
                None
            }
        }
        None => None,
    }
}

fn listed_ticket(tickets: &Tickets, after: u64) -> Option<(u64, bool)> {
    match tickets.listed(after) {
        Some((id, _, stored)) => Some((id.number(), stored)),
        None => None,
    }
}

#[test]
fn tickets_are_listed_by_number(rt: HostRuntime) -> Result<(), Fail> {
    let tickets = four(rt.alloc())?;
    let rows: [(u64, Option<u64>, Option<(u64, bool)>); 6] = [
        (0, Some(1), Some((1, false))),
        (1, Some(4), Some((3, true))),
        (3, Some(4), Some((4, false))),
        (4, Some(5), Some((5, false))),
        (5, None, None),
        (u64::MAX, None, None),
    ];
    for (after, pending, listed) in rows {
        assert!(rt; pending_number(&tickets, after) == pending, "{after}");
        assert!(rt; listed_ticket(&tickets, after) == listed, "{after}");
    }
    assert!(rt; tickets.open() == 4);
    Ok(())
}

#[test]
fn numbers_below_the_base_come_first(rt: HostRuntime) -> Result<(), Fail> {
    let mut tickets = Tickets::new(rt.alloc(), 5);
    let rows: [(u32, Result<(), ApplyFault>); 9] = [
        (0, Err(ApplyFault::Unlawful)),
        (6, Err(ApplyFault::Unlawful)),
        (2, Ok(())),
        (2, Err(ApplyFault::Unlawful)),
        (1, Err(ApplyFault::Unlawful)),
        (4, Ok(())),
        (5, Ok(())),
        (5, Err(ApplyFault::Unlawful)),
        (6, Ok(())),
    ];
    for (number, answer) in rows {
        let cmd = accept(rt.alloc(), number)?;
        assert!(rt; apply(&mut tickets, &cmd, 21) == answer, "{number}");
    }
    assert!(rt; tickets.next() == 7);
    Ok(())
}

#[test]
fn closed_tickets_are_taken_out(rt: HostRuntime) -> Result<(), Fail> {
    let mut tickets = Tickets::new(rt.alloc(), 1);
    for number in 1..301u32 {
        assert!(rt; apply(&mut tickets, &accept(rt.alloc(), number)?, 21) == Ok(()));
    }
    for number in 1..300u64 {
        assert!(rt; apply(&mut tickets, &TicketCmd::Close { number }, 21) == Ok(()));
        assert!(rt; pending_number(&tickets, 0) == Some(number + 1), "{number}");
    }
    assert!(rt; tickets.open() == 1);
    assert!(rt; tickets.state(&id(300)) == TicketState::Pending);
    Ok(())
}

#[test]
fn laws_of_tickets_can_be_called() {
    accepts_follow_the_base();
    open_tickets_are_numbered();
    places_are_of_bodies();
}
