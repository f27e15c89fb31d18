use super::{answer, asked, read_submit, read_ticket};
use mj_base::{Frames, Name, NoMemory};
use std::alloc::Global;
use std::test::Fail;

fn frames_of(alloc: Global, bodies: &[&[u8]]) -> Result<Frames, NoMemory> {
    let mut frames = Frames::new(alloc);
    for body in bodies {
        frames.push(*body)?;
    }
    Ok(frames)
}

/// Whether a name is read that is these bytes; no bytes are none.
fn asks_for(alloc: Global, bodies: &[&[u8]], name: &[u8]) -> Result<bool, NoMemory> {
    match asked(&frames_of(alloc, bodies)?) {
        Some(found) => Ok(found.as_slice() == name),
        None => Ok(name.is_empty()),
    }
}

#[test]
fn the_last_frame_is_asked_for(rt: HostRuntime) -> Result<(), Fail> {
    let rows: [(&[&[u8]], &[u8]); 5] = [
        (&[b"echo"], b"echo"),
        (&[b"", b"a", b"echo"], b"echo"),
        (&[], b""),
        (&[b"echo", b""], b""),
        (&[b"ec\x1fo"], b""),
    ];
    for (bodies, name) in rows {
        assert!(rt; asks_for(rt.alloc(), bodies, name)?, "{bodies:?}");
    }
    Ok(())
}

fn answers(alloc: Global, name: &[u8], known: bool, code: &[u8]) -> Result<bool, Fail> {
    let frames = answer(alloc, &Name::of(name).ok_or("a name")?, known)?;
    Ok(frames.len() == 1 && frames.get(0) == Some(code))
}

#[test]
fn services_of_the_broker_are_answered(rt: HostRuntime) -> Result<(), Fail> {
    let rows: [(&[u8], bool, &[u8]); 5] = [
        (b"mmi.service", true, b"200"),
        (b"mmi.service", false, b"404"),
        (b"mmi.other", true, b"501"),
        (b"mmi.other", false, b"501"),
        (b"mmi.services", true, b"501"),
    ];
    for (name, known, code) in rows {
        assert!(rt; answers(rt.alloc(), name, known, code)?, "{name:?}");
    }
    Ok(())
}

/// The number of frames of the request that is submitted.
fn submitted(alloc: Global, bodies: &[&[u8]]) -> Result<Option<usize>, NoMemory> {
    match read_submit(alloc, &frames_of(alloc, bodies)?)? {
        Some((_, request)) => Ok(Some(request.len())),
        None => Ok(None),
    }
}

#[test]
fn requests_are_submitted_for_other_services(rt: HostRuntime) -> Result<(), Fail> {
    let rows: [(&[&[u8]], Option<usize>); 8] = [
        (&[b"echo", b"hi"], Some(1)),
        (&[b"echo"], Some(0)),
        (&[b"titanic"], Some(0)),
        (&[], None),
        (&[b"", b"hi"], None),
        (&[b"mmi.x", b"hi"], None),
        (&[b"titanic.request", b"hi"], None),
        (&[b"ec\xffo", b"hi"], None),
    ];
    for (bodies, frames) in rows {
        assert!(rt; submitted(rt.alloc(), bodies)? == frames, "{bodies:?}");
    }
    Ok(())
}

/// The number of the ticket that is named.
fn named(alloc: Global, bodies: &[&[u8]]) -> Result<Option<u64>, NoMemory> {
    match read_ticket(&frames_of(alloc, bodies)?) {
        Some(id) => Ok(Some(id.number())),
        None => Ok(None),
    }
}

#[test]
fn a_ticket_is_named_by_one_frame(rt: HostRuntime) -> Result<(), Fail> {
    let rows: [(&[&[u8]], Option<u64>); 7] = [
        (&[b"e56a5d40-28bd-8653-8000-000000000001"], Some(1)),
        (&[b"B819D2BD1AED8DA08000000000000002"], Some(2)),
        (&[], None),
        (&[b"x"], None),
        (&[b"e56a5d40-28bd-4653-8000-000000000001"], None),
        (&[b"e56a5d40-28bd-8653-8000-000000000001", b""], None),
        (&[b"", b"e56a5d40-28bd-8653-8000-000000000001"], None),
    ];
    for (bodies, number) in rows {
        assert!(rt; named(rt.alloc(), bodies)? == number, "{bodies:?}");
    }
    Ok(())
}
