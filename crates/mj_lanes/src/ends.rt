//! The two ends of a channel under the rule.
ghost use Rattle.std.specs.Prelude.{◌≡◌, ◌+◌, ◌<◌, List, [], ◌∷◌, ◌++◌, true, false, IfOk, IfSome, IfNone};
ghost use Rattle.crossbeam_channel.specs.Ends.{sends_on};
ghost use Rattle.mj_lanes.specs.Rule.{of, Begins};
ghost use Rattle.mj_lanes.specs.Ends.{name_of};

use super::bell::Bell;
use super::rule::{Comparing, GivingBack, Keyed, Making, Ordered, Sending, Taking};
use super::view::View;
use crossbeam_channel::{Pass, RuledReceiver, RuledSender, TrySendError, bounded_with};
use mj_base::NoMemory;
use std::alloc::Global;
use std::hint;
use std::marker::Model;
use std::sync::{Arc, Barrier, Wait};

/// How often a taker looks before it sleeps.
const LOOKS: u32 = 32;

/// What senders are made of: the sending side of a channel.
pub type Line<T, K> = RuledSender<T, View<T>, Ordered<K>>;

/// The end of one sender.
#[derive(Drop)]
pub struct SendEnd<T: Drop, K: Keyed<T>> {
    line: Line<T, K>,
    pass: Pass<T, View<T>>,
    bell: Arc<Bell, Global>,
}

impl<T: Drop, K: Keyed<T>> Model for SendEnd<T, K> {
    ghost use Rattle.std.specs.Prelude.{◌≡◌, true};
    ghost use Rattle.crossbeam_channel.specs.Claims.{view as knows, IsSeatAt};
    ghost use Rattle.crossbeam_channel.specs.Ends.{sends_on};
    ghost use Rattle.mj_lanes.specs.Ends.{name_of, SendState};

    ghost Value = { SendState T };

    ghost view = { λ e. record { name = name_of (sends_on e.line); from = (knows e.pass).from; sent = (knows e.pass).sent } };

    ghost invariant = { λ e. IsSeatAt (sends_on e.line) e.pass × ((knows e.pass).sends ≡ true) };
}

/// The end of the one taker, which makes the senders.
#[derive(Drop)]
pub struct TakeEnd<T: Drop, K: Keyed<T>> {
    channel: RuledReceiver<T, View<T>, Ordered<K>>,
    pass: Pass<T, View<T>>,
    bell: Arc<Bell, Global>,
}

impl<T: Drop, K: Keyed<T>> Model for TakeEnd<T, K> {
    ghost use Rattle.std.specs.Prelude.{◌≡◌, true};
    ghost use Rattle.crossbeam_channel.specs.Claims.{view as knows, IsSeatAt};
    ghost use Rattle.crossbeam_channel.specs.Ends.{receives_on};
    ghost use Rattle.mj_lanes.specs.Ends.{name_of, TakeState};

    ghost Value = { TakeState T };

    ghost view = { λ e. record { name = name_of (receives_on e.channel); taken = (knows e.pass).taken; made = (knows e.pass).made } };

    ghost invariant = { λ e. IsSeatAt (receives_on e.channel) e.pass × ((knows e.pass).takes ≡ true) };
}

/// A channel with room for so many items, and its taker.
pub fn open<T: Drop, K: Keyed<T>>(
    alloc: Global,
    capacity: usize,
) -> Result<(Line<T, K>, TakeEnd<T, K>), NoMemory>
    requires { 0 < capacity }
    ensures { IfOk result (λ r. r.1 ≡ record { name = name_of (sends_on r.0); taken = []; made = 0 }) }
{
    let bell = Arc::new(alloc, Bell::new())?;
    let (line, channel, pass) = bounded_with(alloc, capacity)?;
    Ok((
        line,
        TakeEnd {
            channel,
            pass,
            bell,
        },
    ))
}

impl<T: Drop, K: Keyed<T>> SendEnd<T, K> {
    /// Sends an item of this sender, and wakes the taker where it sleeps. It waits while the channel is full, and for ever once
    /// the taker is gone.
    pub fn send<R: Wait>(&mut self, rt: &R, item: T)
        requires { K.from item ≡ self.old.from }
        ensures { self.new ≡ record self.old { sent = self.old.sent ++ item ∷ [] } }
    {
        self.send_quietly(rt, item);
        self.bell.ring();
    }

    /// Sends an item as `send` does, but lets a taker sleep on: it takes the item before the one that wakes it.
    pub fn send_quietly<R: Wait>(&mut self, rt: &R, item: T)
        requires { K.from item ≡ self.old.from }
        ensures { self.new ≡ record self.old { sent = self.old.sent ++ item ∷ [] } }
    {
        match self
            .line
            .try_send_as::<Sending, R>(rt, &mut self.pass, item)
        {
            Ok(()) => {}
            Err(TrySendError::Full(item)) => {
                self.bell.ring();
                self.send_slowly(rt, item);
            }
            Err(_) => rest(rt),
        }
    }

    /// Sends an item, and waits while the channel is full.
    fn send_slowly<R: Wait>(&mut self, rt: &R, item: T)
        requires { K.from item ≡ self.old.from }
        ensures { self.new ≡ record self.old { sent = self.old.sent ++ item ∷ [] } }
    {
        match self.line.send_as::<Sending, R>(rt, &mut self.pass, item) {
            Ok(()) => {}
            Err(_) => rest(rt),
        }
    }

    /// Sends an item as `send_quietly` does, unless the channel is full or the taker is gone; says whether it did.
    pub fn try_send<R: Wait>(&mut self, rt: &R, item: T) -> bool
        requires { K.from item ≡ self.old.from }
        ensures sent { result ≡ true → self.new ≡ record self.old { sent = self.old.sent ++ item ∷ [] } }
        ensures same { result ≡ false → self.new ≡ self.old }
    {
        match self
            .line
            .try_send_as::<Sending, R>(rt, &mut self.pass, item)
        {
            Ok(()) => true,
            Err(_) => false,
        }
    }
}

impl<T: Drop, K: Keyed<T>> TakeEnd<T, K> {
    /// The taker's bell, for one more sender.
    pub fn bell(&self) -> Result<Arc<Bell, Global>, NoMemory> {
        Ok(Arc::try_clone(&self.bell)?)
    }

    /// Makes the next sender.
    pub fn make(&mut self, line: Line<T, K>, bell: Arc<Bell, Global>) -> SendEnd<T, K>
        requires { self.old.name ≡ name_of (sends_on line) }
        ensures hub { self.new ≡ record self.old { made = self.old.made + 1 } }
        ensures end { result ≡ record { name = self.old.name; from = self.old.made; sent = [] } }
    {
        let pass = line.another::<Making>(&mut self.pass);
        SendEnd { line, pass, bell }
    }

    /// Takes the item at the front; None where there is none and no sender is left.
    pub fn receive<R: Wait>(&mut self, rt: &R) -> Option<T>
        ensures taken { IfSome result (λ x. self.new ≡ record self.old { taken = self.old.taken ++ x ∷ [] }) }
        ensures made { IfSome result (λ x. K.from x < self.old.made) }
        ensures none { IfNone result (self.new ≡ self.old) }
    {
        self.channel
            .recv_as::<Taking<K>, R>(rt, &mut self.pass)
            .ok()
    }

    /// Takes the item at the front, if there is one now.
    pub fn poll<R: Wait>(&mut self, rt: &R) -> Option<T>
        ensures taken { IfSome result (λ x. self.new ≡ record self.old { taken = self.old.taken ++ x ∷ [] }) }
        ensures made { IfSome result (λ x. K.from x < self.old.made) }
        ensures none { IfNone result (self.new ≡ self.old) }
    {
        self.channel
            .try_recv_as::<Taking<K>, R>(rt, &mut self.pass)
            .ok()
    }

    /// Takes the item at the front, if one comes soon.
    fn look<R: Wait>(&mut self, rt: &R) -> Option<T>
        ensures taken { IfSome result (λ x. self.new ≡ record self.old { taken = self.old.taken ++ x ∷ [] }) }
        ensures made { IfSome result (λ x. K.from x < self.old.made) }
        ensures none { IfNone result (self.new ≡ self.old) }
    {
        for _look in 0..LOOKS {
            if let Some(item) = self.poll(rt) {
                return Some(item);
            }
            hint::spin_loop();
        }
        None
    }

    /// Takes the item at the front, if there is one; else it sleeps until a sender rings.
    fn doze<R: Wait>(&mut self, rt: &R) -> Option<T>
        ensures taken { IfSome result (λ x. self.new ≡ record self.old { taken = self.old.taken ++ x ∷ [] }) }
        ensures made { IfSome result (λ x. K.from x < self.old.made) }
        ensures none { IfNone result (self.new ≡ self.old) }
    {
        let heard = self.bell.listen();
        match self.poll(rt) {
            Some(item) => {
                self.bell.rise();
                Some(item)
            }
            None => {
                self.bell.sleep(rt, heard);
                None
            }
        }
    }

    /// Takes the item at the front. It waits while there is none, and for ever once no sender is left.
    pub fn take<R: Wait>(&mut self, rt: &R) -> T
        ensures taken { self.new ≡ record self.old { taken = self.old.taken ++ result ∷ [] } }
        ensures made { K.from result < self.old.made }
    {
        for _ in rt.forever() {
            if let Some(item) = self.look(rt) {
                return item;
            }
            if let Some(item) = self.doze(rt) {
                return item;
            }
        }
        unreachable!()
    }

    /// Takes and drops items until there is none and no sender is left.
    pub fn drain<R: Wait>(&mut self, rt: &R)
        ensures { (more : List T) × (self.new ≡ record self.old { taken = self.old.taken ++ more }) }
    {
        for _ in rt.forever() {
            if self.receive(rt).is_none() {
                return;
            }
        }
        unreachable!()
    }

    /// Takes a sender's end back, and compares what was taken with what it sent.
    pub fn gather(&mut self, end: SendEnd<T, K>)
        requires { end.name ≡ self.old.name }
        ensures same { self.new ≡ self.old }
        ensures begins { Begins (of K.from end.from self.old.taken) end.sent }
    {
        let SendEnd {
            line,
            pass,
            bell: _,
        } = end;
        line.absorb::<GivingBack>(&mut self.pass, pass);
        line.learn_as::<Comparing<K>>(&mut self.pass);
    }
}

/// Sleeps until the process ends.
pub fn rest<R: Wait>(rt: &R) -> ! {
    let barrier = Barrier::new(2);
    for _ in rt.forever() {
        barrier.wait(rt);
    }
    unreachable!()
}
