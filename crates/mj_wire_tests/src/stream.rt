use mj_base::{Frames, Limits, Octets};
use mj_greeting::broker_greeting;
use mj_wire::{Wire, WireItem, items_stay, longest_cut_is_read, no_cut_is_read};
use std::alloc::{AllocError, Global};
use std::process::Abort;
use std::test::Fail;

const READY: &[u8] = b"\x04\x1c\x05READY\x0bSocket-Type\x00\x00\x00\x06DEALER";

const QUESTION: &[u8] = b"\x01\x00\x01\x06MDPC01\x01\x0bmmi.service\x00\x04echo";

const ANSWERED: &str = " accepted ready:Dealer message||MDPC01|mmi.service|echo";

/// A greeting, READY and these bytes.
fn hello(alloc: Global, behind: &[u8]) -> Result<Octets, Fail> {
    let mut stream = Octets::new(alloc);
    stream.push_all(&broker_greeting())?;
    stream.push_all(READY)?;
    stream.push_all(behind)?;
    Ok(stream)
}

fn feed(
    rt: &impl Abort,
    alloc: Global,
    wire: &mut Wire,
    piece: &[u8],
    items: &mut Vec<WireItem>,
) -> Result<(), Fail> {
    assert!(rt; !wire.is_spent());
    wire.feed(alloc, piece, items)?;
    Ok(())
}

/// The items as text: a message's frames each behind a bar.
fn shown(alloc: Global, items: &Vec<WireItem>) -> Result<String, AllocError> {
    let mut text = String::new(alloc);
    for item in items {
        match item {
            WireItem::Accepted => text.push_str(" accepted")?,
            WireItem::Ready(kind) => text.push_str(format!(in alloc; " ready:{kind:?}")?.as_str())?,
            WireItem::Message(frames) => push_message(&mut text, frames)?,
            WireItem::Ended(reason, at) => {
                text.push_str(format!(in alloc; " {reason:?}:{at}")?.as_str())?
            }
        }
    }
    Ok(text)
}

fn push_message(text: &mut String, frames: &Frames) -> Result<(), AllocError> {
    text.push_str(" message")?;
    for i in 0..frames.len() {
        text.push_str("|")?;
        if let Some(frame) = frames.get(i) {
            for octet in frame {
                text.push(char::from(*octet))?;
            }
        }
    }
    Ok(())
}

/// What comes of these pieces.
fn read(rt: &impl Abort, alloc: Global, limits: &Limits, pieces: &[&[u8]]) -> Result<String, Fail> {
    let mut wire = Wire::new(alloc, limits)?;
    let mut items = Vec::new(alloc);
    for piece in pieces {
        feed(rt, alloc, &mut wire, *piece, &mut items)?;
    }
    Ok(shown(alloc, &items)?)
}

#[test]
fn a_question_is_read_in_any_two_pieces(rt: HostRuntime) -> Result<(), Fail> {
    let stream = hello(rt.alloc(), QUESTION)?;
    assert!(rt; stream.len() == 123);
    for cut in 0..stream.len() {
        let (first, second) = stream.as_slice().split_at(cut);
        let text = read(&rt, rt.alloc(), &Limits::standard(), &[first, second])?;
        assert!(rt; text.as_str() == ANSWERED, "cut at {cut}");
    }
    Ok(())
}

#[test]
fn a_question_is_read_byte_by_byte(rt: HostRuntime) -> Result<(), Fail> {
    let stream = hello(rt.alloc(), QUESTION)?;
    let mut wire = Wire::new(rt.alloc(), &Limits::standard())?;
    let mut items = Vec::new(rt.alloc());
    for octet in stream.as_slice() {
        feed(&rt, rt.alloc(), &mut wire, &[*octet], &mut items)?;
    }
    assert!(rt; shown(rt.alloc(), &items)?.as_str() == ANSWERED);
    assert!(rt; wire.taken() == 123);
    assert!(rt; !wire.is_spent());
    Ok(())
}

#[test]
fn faults_have_their_reason_and_place(rt: HostRuntime) -> Result<(), Fail> {
    let rows: [(&[u8], &str); 9] = [
        (b"", " accepted ready:Dealer"),
        (b"\x05", " accepted ready:Dealer BadFlags:94"),
        (
            b"\x00\x01a\x08\x00",
            " accepted ready:Dealer message|a BadFlags:97",
        ),
        (
            b"\x01\x01a\x04\x03abc\x06\0\0\0\0\0\0\0\x01d\x00\x01b\x01",
            " accepted ready:Dealer message|a|b",
        ),
        (b"\x06\0\0\0\0\0\0\x20\0", " accepted ready:Dealer"),
        (
            b"\x06\0\0\0\0\0\0\x20\x01",
            " accepted ready:Dealer TooLong:94",
        ),
        (
            b"\x01\0\x01\x06MDPC01\x01\x04echo\x02\0\0\0\0\0\x0f\xff\xf6",
            " accepted ready:Dealer",
        ),
        (
            b"\x01\0\x01\x06MDPC01\x01\x04echo\x02\0\0\0\0\0\x0f\xff\xf7",
            " accepted ready:Dealer TooLong:110",
        ),
        (
            b"\x02\xff\xff\xff\xff\xff\xff\xff\xff",
            " accepted ready:Dealer TooLong:94",
        ),
    ];
    for (behind, text) in rows {
        let stream = hello(rt.alloc(), behind)?;
        let found = read(&rt, rt.alloc(), &Limits::standard(), &[stream.as_slice()])?;
        assert!(rt; found.as_str() == text);
    }
    Ok(())
}

#[test]
fn nothing_follows_a_fault(rt: HostRuntime) -> Result<(), Fail> {
    let rows: [(&[u8], &[u8], &str); 6] = [
        (b"\xfe", QUESTION, " BadSignature:0"),
        (b"\xff12345678\x7e", QUESTION, " BadSignature:9"),
        (b"\xff12345678\x7f\x02", QUESTION, " BadVersion:10"),
        (
            b"\xff12345678\x7f\x03\x01NULL\x01",
            QUESTION,
            " BadMechanism:16",
        ),
        (&broker_greeting(), QUESTION, " accepted BadHandshake:64"),
        (
            &broker_greeting(),
            b"\x04\x06\x05READY\x00\x00",
            " accepted BadSocketType:64",
        ),
    ];
    for (first, second, text) in rows {
        let pieces = [first, second, QUESTION];
        let found = read(&rt, rt.alloc(), &Limits::standard(), &pieces)?;
        assert!(rt; found.as_str() == text);
    }
    Ok(())
}

#[test]
fn a_message_of_1048576_bytes_is_read(rt: HostRuntime) -> Result<(), Fail> {
    let front = b"\x01\0\x01\x06MDPC01\x01\x04echo\x02\0\0\0\0\0\x0f\xff\xf6";
    let stream = hello(rt.alloc(), front)?;
    let part = [7; 4096];
    let mut wire = Wire::new(rt.alloc(), &Limits::standard())?;
    let mut items = Vec::new(rt.alloc());
    feed(&rt, rt.alloc(), &mut wire, stream.as_slice(), &mut items)?;
    for _ in 0..255 {
        feed(&rt, rt.alloc(), &mut wire, &part, &mut items)?;
    }
    feed(&rt, rt.alloc(), &mut wire, &part[..4086], &mut items)?;
    assert!(rt; items.len() == 3);
    let WireItem::Message(frames) = &items[2] else {
        return Err("no message")?;
    };
    assert!(rt; frames.octets() == 1_048_576);
    Ok(())
}

#[test]
fn a_message_of_256_frames_is_read_and_one_of_257_refused(rt: HostRuntime) -> Result<(), Fail> {
    for (more, last) in [(255, "message"), (256, "TooMany:606")] {
        let mut stream = hello(rt.alloc(), b"")?;
        for _ in 0..more {
            stream.push_all(b"\x01\x00")?;
        }
        stream.push_all(b"\x00\x00")?;
        let found = read(&rt, rt.alloc(), &Limits::standard(), &[stream.as_slice()])?;
        assert!(rt; found.as_str().contains(last));
    }
    Ok(())
}

#[test]
fn a_command_of_8192_bytes_is_passed_over(rt: HostRuntime) -> Result<(), Fail> {
    let stream = hello(rt.alloc(), b"\x06\0\0\0\0\0\0\x20\0")?;
    let pieces = [stream.as_slice(), &[0; 8192], b"\x00\x01a"];
    let found = read(&rt, rt.alloc(), &Limits::standard(), &pieces)?;
    assert!(rt; found.as_str() == " accepted ready:Dealer message|a");
    Ok(())
}

#[test]
fn laws_can_be_called() {
    longest_cut_is_read();
    no_cut_is_read();
    items_stay();
}
