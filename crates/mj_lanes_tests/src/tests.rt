ghost use Rattle.std.specs.Prelude.{◌≡◌, ◌<◌, None, length};

use mj_base::{Event, MemorySink, MemorySource, NoMemory, Octets};
use mj_lanes::{
    Clock, HubPass, LanePass, TickPass, WriterPass, gather, lanes_new, read_loop, tick_loop,
    write_left, write_loop, write_ready,
};
use std::alloc::{AllocError, Global};
use std::sync::Wait;
use std::test::Fail;
use std::thread::{self, Threads};

fn octets_of(alloc: Global, bytes: &[u8]) -> Result<Octets, NoMemory> {
    let mut octets = Octets::new(alloc);
    octets.push_all(bytes)?;
    Ok(octets)
}

/// Sends a piece, where it has 1 to 65,536 bytes.
fn send_piece<R: Wait>(pass: &mut LanePass<R>, piece: Octets)
    ensures { pass.new.inbox ≡ pass.old.inbox }
{
    if !piece.is_empty() && piece.len() <= 65_536 {
        pass.send(Event::Bytes(pass.lane(), piece));
    }
}

/// Takes eight entries, and keeps those that there is memory for.
fn take_eight<R: Wait>(mut hub: HubPass<R>, mut seen: Vec<Event>) -> (HubPass<R>, Vec<Event>)
    ensures { (result.0.inbox ≡ hub.inbox) × (result.0.outlets ≡ hub.outlets) }
{
    for _turn in 0..8 {
        let _ = seen.push(hub.take());
    }
    (hub, seen)
}

/// What a reader sends behind its `Open`.
#[derive(Drop)]
struct Three {
    a: Octets,
    b: Octets,
    c: Octets,
}

fn three_of(alloc: Global, a: &[u8], b: &[u8], c: &[u8]) -> Result<Three, NoMemory> {
    Ok(Three {
        a: octets_of(alloc, a)?,
        b: octets_of(alloc, b)?,
        c: octets_of(alloc, c)?,
    })
}

fn send_three<R: Wait>(mut pass: LanePass<R>, pieces: Three) -> LanePass<R>
    ensures { result.inbox ≡ pass.inbox }
{
    let Three { a, b, c } = pieces;
    pass.send(Event::Open(pass.lane()));
    send_piece(&mut pass, a);
    send_piece(&mut pass, b);
    send_piece(&mut pass, c);
    pass
}

fn send_both<R: Wait + Threads + Drop + Send + Sync>(
    rt: &R,
    first: LanePass<R>,
    second: LanePass<R>,
    of_first: Three,
    of_second: Three,
) -> (LanePass<R>, LanePass<R>)
    ensures { (result.0.inbox ≡ first.inbox) × (result.1.inbox ≡ second.inbox) }
{
    thread::join(
        rt,
        move || send_three(first, of_first),
        move || send_three(second, of_second),
    )
}

/// What the hub took of two readers that send in threads of their own.
fn run_two_readers<R: Wait + Threads + Copy + Drop + Send + Sync>(
    rt: R,
    alloc: Global,
) -> Result<Vec<Event>, NoMemory> {
    let of_first = three_of(alloc, b"a", b"bc", b"def")?;
    let of_second = three_of(alloc, b"12", b"3", b"4567")?;
    let (hub, mut readers, _writers, _ticks) = lanes_new(rt, alloc, 2)?;
    let Some(second) = readers.pop() else {
        unreachable!();
    };
    let Some(first) = readers.pop() else {
        unreachable!();
    };
    let shared = &rt;
    let (_passes, (_hub, seen)) = thread::join(
        shared,
        move || send_both(shared, first, second, of_first, of_second),
        move || take_eight(hub, Vec::new(alloc)),
    );
    Ok(seen)
}

/// A new hub's passes are taken back.
#[test]
fn all_passes_can_be_gathered(rt: HostRuntime) -> Result<(), Fail> {
    let (hub, readers, writers, ticks) = lanes_new(rt, rt.alloc(), 2)?;
    gather(hub, readers, writers, ticks);
    Ok(())
}

/// What of these events is of the lane, as text.
fn text_of(alloc: Global, events: &[Event], lane: u32) -> Result<Vec<u8>, NoMemory> {
    let mut text = Vec::new(alloc);
    for event in events {
        match event {
            Event::Open(at) if *at == lane => text.extend_from_slice(b"open ")?,
            Event::Bytes(at, piece) if *at == lane => {
                text.extend_from_slice(piece.as_slice())?;
                text.push(b' ')?;
            }
            _ => {}
        }
    }
    Ok(text)
}

#[test]
fn two_readers_are_heard_in_order(rt: HostRuntime) -> Result<(), Fail> {
    let seen = run_two_readers(rt, rt.alloc())?;
    let first = text_of(rt.alloc(), seen.as_slice(), 0)?;
    let second = text_of(rt.alloc(), seen.as_slice(), 1)?;
    assert!(rt; seen.len() == 8);
    assert!(rt; first.as_slice() == b"open a bc def ".as_slice());
    assert!(rt; second.as_slice() == b"open 12 3 4567 ".as_slice());
    Ok(())
}

/// Takes entries up to and with the first `Stop`, eight at most.
fn take_until_stop<R: Wait>(alloc: Global, hub: &mut HubPass<R>) -> Result<Vec<Event>, NoMemory> {
    let mut events = Vec::new(alloc);
    for _turn in 0..8 {
        let event = hub.take();
        let is_stop = matches!(&event, Event::Stop);
        events.push(event)?;
        if is_stop {
            break;
        }
    }
    Ok(events)
}

/// The events as text, a piece by its length.
fn shown(alloc: Global, events: &[Event]) -> Result<String, NoMemory> {
    let mut text = String::new(alloc);
    for event in events {
        show(&mut text, event)?;
    }
    Ok(text)
}

fn show(text: &mut String, event: &Event) -> Result<(), AllocError> {
    match event {
        Event::Open(lane) => append(text, "open", u64::from(*lane)),
        Event::Bytes(_, piece) => append(text, "bytes", piece.len() as u64),
        Event::Sent(lane) => append(text, "sent", u64::from(*lane)),
        Event::Close(lane) => append(text, "close", u64::from(*lane)),
        Event::Tick(ms) => append(text, "tick", *ms),
        Event::Stop => text.push_str("stop"),
    }
}

fn append(text: &mut String, word: &str, number: u64) -> Result<(), AllocError> {
    let words = format!(in *text.allocator(); "{word} {number}, ")?;
    text.push_str(words.as_str())
}

fn open_and_close<R: Wait + Drop>(mut pass: LanePass<R>) {
    pass.send(Event::Open(pass.lane()));
    pass.send(Event::Close(pass.lane()));
}

fn stop<R: Wait + Drop>(mut pass: TickPass<R>) {
    pass.stop();
}

#[test]
fn a_hub_stops_and_drains(rt: HostRuntime) -> Result<(), Fail> {
    let (mut hub, mut readers, writers, ticks) = lanes_new(rt, rt.alloc(), 1)?;
    let Some(pass) = readers.pop() else {
        unreachable!();
    };
    drop(writers);
    let reader = thread::spawn(&rt, move || open_and_close(pass))?;
    let ticker = thread::spawn(&rt, move || stop(ticks))?;
    let events = take_until_stop(rt.alloc(), &mut hub)?;
    hub.drain();
    reader.join(&rt);
    ticker.join(&rt);
    let text = shown(rt.alloc(), events.as_slice())?;
    let before = text.as_str().strip_suffix("stop");
    assert!(rt;
        matches!(before, Some("" | "open 0, " | "open 0, close 0, ")),
        "{text}"
    );
    Ok(())
}

fn tick_often<R: Wait + Drop>(mut ticks: TickPass<R>) {
    for ms in 0..3_000 {
        ticks.tick(ms);
    }
}

#[test]
fn a_drain_takes_more_than_the_inbox_holds(rt: HostRuntime) -> Result<(), Fail> {
    let (mut hub, readers, writers, ticks) = lanes_new(rt, rt.alloc(), 1)?;
    drop(readers);
    drop(writers);
    let ticker = thread::spawn(&rt, move || tick_often(ticks))?;
    hub.drain();
    ticker.join(&rt);
    Ok(())
}

/// Sends as many entries and puts as many marks as there is room for.
fn fill<R: Wait>(hub: &mut HubPass<R>, ticks: &mut TickPass<R>)
    requires { 0 < length hub.old.outlets }
{
    for _turn in 0..4_097 {
        hub.mark(0);
    }
    for ms in 0..1_024 {
        ticks.tick(ms);
    }
}

#[test]
fn nobody_waits_while_there_is_room(rt: HostRuntime) -> Result<(), Fail> {
    let (mut hub, _readers, _writers, mut ticks) = lanes_new(rt, rt.alloc(), 1)?;
    fill(&mut hub, &mut ticks);
    let event = hub.take();
    assert!(rt; matches!(&event, Event::Tick(0)));
    Ok(())
}

/// What a reader sends of 70,000 bytes where the read of this number, from 0, fails.
fn read_over<R: Wait + Copy + Drop>(
    rt: R,
    alloc: Global,
    failing: u64,
) -> Result<Vec<Event>, NoMemory> {
    let (mut hub, mut readers, _writers, mut ticks) = lanes_new(rt, alloc, 1)?;
    let Some(mut pass) = readers.pop() else {
        unreachable!();
    };
    read_counted(alloc, &mut pass, failing)?;
    ticks.stop();
    take_until_stop(alloc, &mut hub)
}

fn read_counted<R: Wait + Copy>(
    alloc: Global,
    pass: &mut LanePass<R>,
    failing: u64,
) -> Result<(), NoMemory> {
    let mut source = MemorySource::new(counted(alloc, 70_000)?, vec![in alloc; failing]?);
    read_loop(alloc, pass, &mut source)
}

/// So many bytes, each the low byte of its place.
fn counted(alloc: Global, count: u32) -> Result<Octets, NoMemory> {
    let mut octets = Octets::new(alloc);
    for place in 0..count {
        octets.push_all(&[(place & 0xff) as u8])?;
    }
    Ok(octets)
}

/// The bytes of all pieces, in order.
fn bytes_of(alloc: Global, events: &[Event]) -> Result<Octets, NoMemory> {
    let mut octets = Octets::new(alloc);
    for event in events {
        if let Event::Bytes(_, piece) = event {
            octets.push_all(piece.as_slice())?;
        }
    }
    Ok(octets)
}

#[test]
fn a_reader_sends_what_comes_before_a_failure(rt: HostRuntime) -> Result<(), Fail> {
    for (failing, text, count) in [
        (0, "close 0, stop", 0),
        (1, "bytes 65536, close 0, stop", 65_536),
        (2, "bytes 65536, bytes 4464, close 0, stop", 70_000),
        (3, "bytes 65536, bytes 4464, close 0, stop", 70_000),
    ] {
        let events = read_over(rt, rt.alloc(), failing)?;
        let is = shown(rt.alloc(), events.as_slice())?;
        let bytes = bytes_of(rt.alloc(), events.as_slice())?;
        let wanted = counted(rt.alloc(), count)?;
        assert!(rt; is.as_str() == text, "{is}");
        assert!(rt; bytes.as_slice() == wanted.as_slice());
    }
    Ok(())
}

/// Puts pieces for a peer, an end mark, and a piece for the next peer.
fn put_all<R: Wait>(alloc: Global, hub: &mut HubPass<R>) -> Result<(), NoMemory>
    requires { 0 < length hub.old.outlets }
{
    hub.put(0, octets_of(alloc, b"ab")?);
    hub.put(0, octets_of(alloc, b"c")?);
    hub.put(0, octets_of(alloc, b"def")?);
    hub.mark(0);
    hub.put(0, octets_of(alloc, b"next")?);
    Ok(())
}

/// Writes up to the end mark; where two write, the first takes what waits, and leaves all of it to the second, since nothing
/// goes into a sink of memory without waiting.
fn write_all<R: Wait + Copy>(
    pass: &mut WriterPass<R>,
    two_write: bool,
    sink: &mut MemorySink,
) -> Result<(), NoMemory> {
    if two_write {
        let left = write_ready(pass, sink);
        return write_left(pass, &left, sink);
    }
    write_loop(pass, sink)
}

/// What the pass's writer writes, and then what is left for the next one, where the write of this number, from 0, fails.
fn written_over<R: Wait + Copy>(
    alloc: Global,
    pass: &mut WriterPass<R>,
    two_write: bool,
    failing: u64,
) -> Result<Octets, NoMemory> {
    let mut sink = MemorySink::new(alloc, vec![in alloc; failing]?);
    write_all(pass, two_write, &mut sink)?;
    let mut written = octets_of(alloc, sink.written())?;
    written.push_all(b" ")?;
    if let Some(piece) = pass.take_piece() {
        written.push_all(piece.as_slice())?;
    }
    Ok(written)
}

/// What a writer writes and leaves, and what it tells.
fn write_over<R: Wait + Copy + Drop>(
    rt: R,
    alloc: Global,
    two_write: bool,
    failing: u64,
) -> Result<(Octets, Vec<Event>), NoMemory> {
    let (mut hub, _readers, mut writers, mut ticks) = lanes_new(rt, alloc, 1)?;
    let Some(mut pass) = writers.pop() else {
        unreachable!();
    };
    put_all(alloc, &mut hub)?;
    let written = written_over(alloc, &mut pass, two_write, failing)?;
    ticks.stop();
    Ok((written, take_until_stop(alloc, &mut hub)?))
}

#[test]
fn a_writer_tells_of_what_was_written_before_a_failure(rt: HostRuntime) -> Result<(), Fail> {
    for (two_write, failing, wanted, text) in [
        (false, 0, " next", "stop"),
        (false, 1, "ab next", "sent 0, stop"),
        (false, 2, "abc next", "sent 0, sent 0, stop"),
        (false, 3, "abcdef next", "sent 0, sent 0, sent 0, stop"),
        (true, 0, " next", "stop"),
        (true, 1, "ab next", "sent 0, stop"),
        (true, 3, "abcdef next", "sent 0, sent 0, sent 0, stop"),
    ] {
        let (written, events) = write_over(rt, rt.alloc(), two_write, failing)?;
        let is = shown(rt.alloc(), events.as_slice())?;
        assert!(rt; written.as_slice() == wanted.as_bytes());
        assert!(rt; is.as_str() == text, "{is}");
    }
    Ok(())
}

/// A clock that goes on by 100, from 100, and tells nothing.
#[derive(Drop)]
struct Steps {
    moment: u64,
}

impl Clock for Steps {
    ghost gave = { λ _. None };

    fn next(&mut self) -> u64 {
        self.moment = self.moment.saturating_add(100);
        self.moment.min(1_000_000_000_000_000)
    }
}

fn tick_over<R: Wait + Copy + Drop>(
    rt: R,
    alloc: Global,
    until: u64,
) -> Result<Vec<Event>, NoMemory> {
    let (mut hub, _readers, _writers, mut ticks) = lanes_new(rt, alloc, 1)?;
    tick_loop(&mut ticks, &mut Steps { moment: 0 }, until);
    take_until_stop(alloc, &mut hub)
}

#[test]
fn a_ticker_stops_at_the_first_moment_not_below_its_end(rt: HostRuntime) -> Result<(), Fail> {
    for (until, text) in [
        (1, "tick 100, stop"),
        (200, "tick 100, tick 200, stop"),
        (201, "tick 100, tick 200, tick 300, stop"),
    ] {
        let events = tick_over(rt, rt.alloc(), until)?;
        let is = shown(rt.alloc(), events.as_slice())?;
        assert!(rt; is.as_str() == text, "{is}");
    }
    Ok(())
}
