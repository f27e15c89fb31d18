ghost use Rattle.std.specs.Prelude.{◌≤◌, length};
ghost use Rattle.std.specs.Option.{ForSome};

use mj_lanes::{Left, PieceSink, WriterPass, is_done, write_left, write_ready};
use std::sync::atomic::{AtomicBool, Ordering};
use std::sync::{Condvar, Mutex, Wait};

/// By what is written to the peers of a lane.
#[derive(Drop)]
struct Exit<R, K> {
    pass: WriterPass<R>,
    /// The connection's sink, while there is a connection.
    sink: Option<K>,
    /// What the hub left to the lane's writer, which then writes up to the end mark.
    left: Option<Left>,
    /// No connection will come.
    closed: bool,
    ghost left_is: { ForSome left (λ l. (l.told ≤ l.whole) × (l.whole ≤ length pass.held)) },
}

/// What a lane's reader, its writer and the hub share: the reader puts in the sink of each connection, and accepts the next
/// one only once that sink is done with. The hub writes what goes without waiting, and at the first write that doesn't go
/// whole leaves the connection to the writer.
#[derive(Drop)]
pub struct Slot<R, K> {
    exit: Mutex<Exit<R, K>>,
    changed: Condvar,
    /// The connection is the writer's. The hub sets it, and the writer takes it away before the slot is free.
    handed: AtomicBool,
}

impl<R: Drop, K: Drop> Slot<R, K> {
    /// A slot without a connection.
    pub fn new(pass: WriterPass<R>) -> Slot<R, K> {
        let exit = Exit {
            pass,
            sink: None,
            left: None,
            closed: false,
        };
        Slot {
            exit: Mutex::new(exit),
            changed: Condvar::new(),
            handed: AtomicBool::new(false),
        }
    }

    /// Waits until there is no connection.
    pub fn wait_free<W: Wait>(&self, rt: &W) {
        let guard = self.exit.lock(rt);
        let _free = self
            .changed
            .wait_while(rt, guard, |exit| exit.sink.is_some());
    }

    /// Puts in a connection's sink.
    pub fn fill<W: Wait>(&self, rt: &W, sink: K) {
        let mut exit = self.exit.lock(rt);
        exit.sink = Some(sink);
    }

    /// Says that no connection will come.
    pub fn close<W: Wait>(&self, rt: &W) {
        let mut exit = self.exit.lock(rt);
        exit.closed = true;
        self.changed.notify_all();
    }
}

impl<R: Wait + Copy + Drop, K: PieceSink + Drop> Slot<R, K> {
    /// Writes what waits in the lane's outlet and goes without waiting, unless the connection is the writer's.
    pub fn write_out(&self, rt: &R) {
        if self.handed.load(Ordering::SeqCst) {
            return;
        }
        let mut exit = self.exit.lock(rt);
        match write_all_ready(rt, &mut exit) {
            Turn::Again | Turn::Over => {}
            Turn::Ended => self.changed.notify_all(),
            Turn::Left => {
                self.handed.store(true, Ordering::SeqCst);
                self.changed.notify_all();
            }
        }
    }

    /// Writes what the hub leaves of one connection after the other, until no other will come.
    pub fn write_on(&self, rt: &R) {
        for _ in rt.forever() {
            let guard = self.exit.lock(rt);
            let mut exit = self
                .changed
                .wait_while(rt, guard, |exit| exit.left.is_none() && !exit.closed);
            if !finish(&mut exit) {
                return;
            }
            self.handed.store(false, Ordering::SeqCst);
            self.changed.notify_all();
        }
    }
}

/// Writes again and again until nothing waits, the connection has ended, or something is left to the writer; says which.
fn write_all_ready<R: Wait, K: PieceSink + Drop>(rt: &R, exit: &mut Exit<R, K>) -> Turn {
    for _ in rt.forever() {
        match write_once(exit) {
            Turn::Again => {}
            turn => return turn,
        }
    }
    unreachable!()
}

/// What a look at the outlet came to.
#[derive(Clone, Copy)]
enum Turn {
    /// All that waited was written, and more may wait.
    Again,
    /// Nothing waits.
    Over,
    /// The connection has ended.
    Ended,
    /// Something is left to the writer.
    Left,
}

/// Takes what waits, as far as it fits into one batch, and writes of it what goes without waiting.
fn write_once<R: Wait, K: PieceSink + Drop>(exit: &mut Exit<R, K>) -> Turn {
    if exit.left.is_some() {
        return Turn::Over;
    }
    let Some(sink) = &mut exit.sink else {
        return Turn::Over;
    };
    let left = write_batch(&mut exit.pass, sink);
    if !is_done(&exit.pass, &left) {
        exit.left = Some(left);
        return Turn::Left;
    }
    if left.marked {
        exit.sink = None;
        return Turn::Ended;
    }
    if left.whole == 0 {
        return Turn::Over;
    }
    Turn::Again
}

/// Takes what waits, and writes of it what goes without waiting.
fn write_batch<R: Wait, K: PieceSink>(pass: &mut WriterPass<R>, sink: &mut K) -> Left
    ensures { (result.told ≤ result.whole) × (result.whole ≤ length pass.new.held) }
{
    write_ready(pass, sink)
}

/// Writes what is left of a connection up to its end; false where no connection will come.
fn finish<R: Wait + Copy, K: PieceSink + Drop>(exit: &mut Exit<R, K>) -> bool {
    let Some(left) = exit.left else {
        return false;
    };
    exit.left = None;
    if let Some(sink) = &mut exit.sink {
        let _ = write_left(&mut exit.pass, &left, sink);
    }
    exit.sink = None;
    true
}
