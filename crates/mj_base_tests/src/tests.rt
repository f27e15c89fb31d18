use mj_base::{
    Frames, Limits, Link, LinkAnswer, LinkEvent, LinkWrite, MemorySink, MemorySource, Name,
    NoMemory, Note, Octets, Out, ReadAnswer, ScriptLink, Sink, Source, StdSink, StdSource,
    WriteAnswer,
};
use std::alloc::{AllocError, Global};
use std::collections::VecDeque;
use std::test::Fail;

fn octets_of(alloc: Global, bytes: &[u8]) -> Result<Octets, Fail> {
    Ok(Octets::copy_of(alloc, bytes)?)
}

fn two_frames(alloc: Global) -> Result<Frames, NoMemory> {
    let mut frames = Frames::new(alloc);
    frames.push(b"")?;
    frames.push(b"MDPC01")?;
    Ok(frames)
}

#[test]
fn frames_keep_their_bytes_and_count_them(rt: HostRuntime) -> Result<(), Fail> {
    let frames = two_frames(rt.alloc())?;
    assert!(rt; frames.len() == 2 && frames.octets() == 6 && frames.weight() == 70);
    assert!(rt; frames.get(1) == Some(b"MDPC01".as_slice()) && frames.get(2).is_none());
    Ok(())
}

#[test]
fn frames_are_copied_whole_or_from_a_place(rt: HostRuntime) -> Result<(), Fail> {
    let copy = two_frames(rt.alloc())?.copy()?;
    assert!(rt; copy.len() == 2 && !copy.is_empty());
    let tail = copy.copy_from(1)?;
    assert!(rt; tail.len() == 1 && tail.get(0) == Some(b"MDPC01".as_slice()));
    Ok(())
}

#[test]
fn octets_grow_and_are_cut(rt: HostRuntime) -> Result<(), Fail> {
    let mut octets = octets_of(rt.alloc(), b"abc")?;
    octets.push_all(b"de")?;
    assert!(rt; octets.as_slice() == b"abcde".as_slice());
    octets.truncate(2);
    assert!(rt; octets.len() == 2 && octets.weight() == 2);
    octets.clear();
    assert!(rt; octets.is_empty());
    Ok(())
}

#[test]
fn octets_are_made_of_a_vector(rt: HostRuntime) -> Result<(), Fail> {
    let octets = Octets::from_vec(vec![in rt.alloc(); 7, 8]?);
    assert!(rt; octets.as_slice() == [7, 8].as_slice());
    Ok(())
}

#[test]
fn names_are_printable_and_at_most_255_bytes(rt: HostRuntime) {
    for (octets, fine) in [
        (b"".as_slice(), false),
        (b" ".as_slice(), true),
        (b"echo~".as_slice(), true),
        (b"\x7f".as_slice(), false),
        (b"\x1f".as_slice(), false),
        ([b'a'; 255].as_slice(), true),
        ([b'a'; 256].as_slice(), false),
    ] {
        assert!(rt; Name::of(octets).is_some() == fine, "{octets:?}");
    }
}

#[test]
fn titanic_names_are_reserved_where_there_is_a_store(rt: HostRuntime) {
    for (octets, stored, reserved) in [
        (b"mmi.service".as_slice(), false, true),
        (b"mmi".as_slice(), true, false),
        (b"titanic.close".as_slice(), false, false),
        (b"titanic.close".as_slice(), true, true),
    ] {
        let name = Name::of(octets);
        assert!(rt;
            name.map(|n| n.copy().reserved(stored)) == Some(reserved),
            "{octets:?}"
        );
    }
}

#[test]
fn a_memory_source_fails_where_it_is_told_to(rt: HostRuntime) -> Result<(), Fail> {
    let failing = vec![in rt.alloc(); 1]?;
    let mut source = MemorySource::new(octets_of(rt.alloc(), b"abc")?, failing);
    let mut into = [0; 2];
    assert!(rt; source.read(&mut into) == ReadAnswer::Got(2));
    assert!(rt; into == *b"ab");
    assert!(rt; source.read(&mut into) == ReadAnswer::Failed);
    assert!(rt; source.read(&mut into) == ReadAnswer::Got(1));
    assert!(rt; into[0] == b'c');
    assert!(rt; source.read(&mut into) == ReadAnswer::End);
    Ok(())
}

#[test]
fn a_memory_sink_fails_where_it_is_told_to(rt: HostRuntime) -> Result<(), Fail> {
    let failing = vec![in rt.alloc(); 1]?;
    let mut sink = MemorySink::new(rt.alloc(), failing);
    assert!(rt; sink.write(b"ab") == WriteAnswer::Done);
    assert!(rt; sink.write(b"xy") == WriteAnswer::Failed);
    assert!(rt; sink.write(b"c") == WriteAnswer::Done);
    assert!(rt; sink.written() == b"abc".as_slice());
    Ok(())
}

#[test]
fn a_writer_is_a_sink(rt: HostRuntime) -> Result<(), Fail> {
    let mut queue: VecDeque<u8> = VecDeque::new(rt.alloc());
    assert!(rt; StdSink::new(&mut queue).write(b"hi") == WriteAnswer::Done);
    assert!(rt; queue.len() == 2);
    Ok(())
}

#[test]
fn a_reader_is_a_source(rt: HostRuntime) -> Result<(), Fail> {
    let mut queue: VecDeque<u8> = VecDeque::new(rt.alloc());
    queue.push_back(b'i')?;
    let mut source = StdSource::new(queue);
    let mut into = [0; 8];
    assert!(rt; source.read(&mut into) == ReadAnswer::Got(1) && into[0] == b'i');
    assert!(rt; source.read(&mut into) == ReadAnswer::End);
    Ok(())
}

#[test]
fn a_peer_allows_more_than_the_broker(rt: HostRuntime) {
    assert!(rt; Limits::standard().frames == 256);
    assert!(rt; Limits::peer().message == 1_049_600);
    assert!(rt; Limits::standard().tickets == 65_536);
}

#[test]
fn limits_above_the_largest_are_not_lawful(rt: HostRuntime) {
    let standard = Limits::standard();
    for (limits, fine) in [
        (standard, true),
        (Limits::peer(), true),
        (
            Limits {
                frames: 261,
                ..standard
            },
            false,
        ),
        (
            Limits {
                tickets: 65_537,
                ..standard
            },
            false,
        ),
        (
            Limits {
                busy_lease: 60_001,
                ..standard
            },
            false,
        ),
    ] {
        assert!(rt; limits.are_lawful() == fine, "{limits:?}");
    }
}

fn script_link(alloc: Global) -> Result<ScriptLink, Fail> {
    let events = vec![in alloc;
        LinkEvent::Given(octets_of(alloc, b"abc")?),
        LinkEvent::End,
        LinkEvent::Given(octets_of(alloc, b"d")?),
    ]?;
    Ok(ScriptLink::new(alloc, events, vec![in alloc; 1, 4]?))
}

/// What so many reads of at most two bytes answer.
fn answers_of(alloc: Global, link: &mut ScriptLink, count: u32) -> Result<String, AllocError> {
    let mut text = String::new(alloc);
    let mut into = [0; 2];
    for _read in 0..count {
        text.push_str(format!(in alloc; "{:?} ", link.read(&mut into))?.as_str())?;
    }
    Ok(text)
}

#[test]
fn a_script_link_gives_its_events_and_keeps_what_is_written(rt: HostRuntime) -> Result<(), Fail> {
    let mut link = script_link(rt.alloc())?;
    let first = answers_of(rt.alloc(), &mut link, 4)?;
    assert!(rt; first.as_str() == "Got(2) Failed Got(1) End ");
    assert!(rt; link.write(b"x") == LinkWrite::Failed && link.write(b"y") == LinkWrite::Done);
    assert!(rt; link.reopen().is_ok());
    let second = answers_of(rt.alloc(), &mut link, 2)?;
    assert!(rt; second.as_str() == "Got(1) Idle ");
    assert!(rt; link.write(b"z") == LinkWrite::Done && link.written() == b"yz".as_slice());
    Ok(())
}

#[test]
fn a_note_is_an_out_to_no_lane(rt: HostRuntime) {
    assert!(rt;
        matches!(
            Out::Note(Note::Again(2, true)),
            Out::Note(Note::Again(2, true))
        )
    );
}
