//! The rule of a channel, and each kind of step that it allows. These types are for proofs alone.
ghost use Rattle.std.specs.Prelude.{◌+◌, ℕ, [], List};
ghost use Rattle.mj_lanes.specs.Rule.{of, sender, hub, hub_with, spent, InOrder, Sends, Takes, Begins};

use super::view::View;
use crossbeam_channel::protocol::{Join, Lesson, Outcome, Protocol, Split};
use std::marker::PhantomData;

/// Which sender an item is of.
pub trait Keyed<T> {
    ghost from: { T → ℕ };
}

/// Of each sender, what was taken and then what the channel holds is what it sent.
pub struct Ordered<K> {
    keyed: PhantomData<K>,
}

impl<T, K: Keyed<T>> Protocol<T, View<T>> for Ordered<K> {
    ghost holds = { InOrder K.from };

    ghost first = { hub [] 0 };
}

/// The taker makes a sender's pass, with the next number.
pub struct Making;

impl<T> Split<View<T>> for Making {
    ghost left = { λ v. record v { made = v.made + 1 } };

    ghost right = { λ v. sender v.made [] };
}

/// The taker takes a sender's pass back.
pub struct GivingBack;

impl<T> Join<View<T>> for GivingBack {
    ghost both = { λ v w. hub_with w.from w.sent v.taken v.made };

    ghost spent = { spent };
}

/// A sender sends an item.
pub struct Sending;

impl<T> Outcome<T, View<T>> for Sending {
    ghost then = { Sends };
}

impl<T> Lesson<T, View<T>> for Sending {
    ghost fact = { λ v items. Unit {0} };
}

/// The taker takes the item at the front, or finds none.
pub struct Taking<K> {
    keyed: PhantomData<K>,
}

impl<T, K: Keyed<T>> Outcome<T, View<T>> for Taking<K> {
    ghost then = { Takes K.from };
}

impl<T, K: Keyed<T>> Lesson<T, View<T>> for Taking<K> {
    ghost fact = { λ v items. Unit {0} };
}

/// The taker, with the pass of a sender taken back, compares what it took with what was sent.
pub struct Comparing<K> {
    keyed: PhantomData<K>,
}

impl<T, K: Keyed<T>> Lesson<T, View<T>> for Comparing<K> {
    ghost fact = { λ v items. Begins (of K.from v.from v.taken) v.sent };
}
