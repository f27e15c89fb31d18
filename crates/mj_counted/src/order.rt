ghost use Rattle.std.specs.Prelude.{◌≡◌, ◌+◌, ◌^◌, ◌<◌, ◌≤◌, ◌==◌, ℕ, true, false, Bool, None, Some, not, ◌&&◌, ◌||◌, length, slice_get, IsOk, IfOk, OnOk, OnErr, IfSome, IfNone, if◌then◌else◌, vec_capacity, vec_len};
ghost use Rattle.mj_counted.specs.Pairs.{StandsAt, below, has_pair, is_of, is_pair, is_rising, same_pair};
ghost use Rattle.mj_counted.specs.Pairs;

use super::Steps;
use mj_base::NoMemory;
use std::alloc::Global;
use std::marker::Model;
use std::sync::ledger::Ledger;

/// Different pairs of a number and a key in rising order. Each call that looks at them is a step.
#[derive(Drop)]
pub struct Order {
    pairs: Vec<(u64, usize)>,
}

impl Model for Order {
    ghost use Rattle.std.specs.Prelude.{◌≡◌, ◌-◌, true, vec_len, vec_capacity};
    ghost use Rattle.mj_counted.specs.Pairs.{Pairs, is_rising};

    ghost Value = { Pairs };

    ghost view = { λ o. record { pairs = o.pairs.items; spare = vec_capacity o.pairs - vec_len o.pairs } };

    ghost invariant = { λ o. is_rising o.pairs.items ≡ true };
}

impl Order {
    /// No pairs.
    pub fn new(alloc: Global) -> Order
        ensures { (pair : ℕ × ℕ) → has_pair pair result.pairs ≡ false }
    {
        Order {
            pairs: Vec::new(alloc),
        }
    }

    /// Makes room for at least `n` pairs more.
    pub fn reserve(&mut self, n: usize) -> Result<(), NoMemory>
        ensures room { OnOk result (n ≤ self.new.spare) }
        ensures kept { self.old.spare ≤ self.new.spare }
        ensures same { self.new.pairs ≡ self.old.pairs }
    {
        self.pairs.reserve(n)?;
        Ok(())
    }

    /// The pair at this place.
    pub fn get<L: Ledger>(&self, at: usize, steps: &mut Steps<L>) -> Option<(u64, usize)>
        ensures value { result ≡ slice_get self.now.pairs at }
        ensures stands { IfSome result (StandsAt self.now.pairs at) }
        ensures empty { IfNone result (at ≡ 0 → (pair : ℕ × ℕ) → has_pair pair self.now.pairs ≡ false) }
        ensures rising { is_rising self.now.pairs ≡ true }
        ensures within { IfSome result (λ pair. at + 1 < 2 ^ 64) }
        ensures cost { steps.new ≡ steps.old + 1 }
    {
        steps.tick();
        pair_at(&self.pairs, at)
    }

    /// How many pairs are below this one.
    pub fn find<L: Ledger>(&self, pair: (u64, usize), steps: &mut Steps<L>) -> usize
        ensures value { result ≡ below pair self.now.pairs }
        ensures none { pair.1 ≡ 0 → is_of pair.0 (slice_get self.now.pairs result) ≡ false → (key : ℕ) → has_pair (pair.0, key) self.now.pairs ≡ false }
        ensures cost { steps.new ≡ steps.old + 1 }
    {
        steps.tick();
        place_of(&self.pairs, pair)
    }

    /// Puts in a pair that isn't there.
    pub fn insert<L: Ledger>(
        &mut self,
        pair: (u64, usize),
        steps: &mut Steps<L>,
    ) -> Result<(), NoMemory>
        requires { has_pair pair self.old.pairs ≡ false }
        ensures changed { OnOk result ((p : ℕ × ℕ) → has_pair p self.new.pairs ≡ (same_pair p pair || has_pair p self.old.pairs)) }
        ensures ok { 0 < self.old.spare → IsOk result }
        ensures room { OnOk result (self.old.spare ≤ self.new.spare + 1) }
        ensures same { OnErr result (self.new.pairs ≡ self.old.pairs) }
        ensures room_stays { OnErr result (self.old.spare ≤ self.new.spare) }
        ensures cost { steps.new ≡ steps.old + 1 }
    {
        steps.tick();
        let at = place_of(&self.pairs, pair);
        self.pairs.insert(at, pair)?;
        Ok(())
    }

    /// Takes this pair out, and answers whether it was there.
    pub fn remove<L: Ledger>(&mut self, pair: (u64, usize), steps: &mut Steps<L>) -> bool
        ensures value { result ≡ has_pair pair self.old.pairs }
        ensures changed { (p : ℕ × ℕ) → has_pair p self.new.pairs ≡ (not (same_pair p pair) && has_pair p self.old.pairs) }
        ensures room { self.old.spare + (if has_pair pair self.old.pairs then 1 else 0) ≤ self.new.spare }
        ensures bound { self.new.spare < 2 ^ 64 }
        ensures cost { steps.new ≡ steps.old + 1 }
    {
        steps.tick();
        let at = place_of(&self.pairs, pair);
        if !is_at(&self.pairs, at, pair) {
            return false;
        }
        self.pairs.remove(at);
        true
    }
}

fn pair_at(pairs: &[(u64, usize)], at: usize) -> Option<(u64, usize)>
    ensures { result ≡ slice_get pairs.now at }
{
    pairs.get(at).copied()
}

/// How many of these pairs, which rise, are below this one.
fn place_of(pairs: &[(u64, usize)], pair: (u64, usize)) -> usize
    requires { is_rising pairs.now ≡ true }
    ensures value { result ≡ below pair pairs.now }
    ensures within { result ≤ length pairs.now }
{
    let mut low = 0;
    let mut high = pairs.len();
    while low < high {
        let middle = low + (high - low) / 2;
        if is_below(pairs[middle], pair) {
            low = middle + 1;
        } else {
            high = middle;
        }
    }
    low
}

fn is_below(pair: (u64, usize), other: (u64, usize)) -> bool
    ensures { result ≡ Pairs.is_below pair other }
{
    pair.0 < other.0 || (pair.0 == other.0 && pair.1 < other.1)
}

/// Whether this pair stands here.
fn is_at(pairs: &[(u64, usize)], at: usize, pair: (u64, usize)) -> bool
    ensures { result ≡ is_pair pair (slice_get pairs.now at) }
{
    match pairs.get(at) {
        Some(other) => pair == *other,
        None => false,
    }
}

/// The key of a pair of this number, where there is one.
pub fn key_for<L: Ledger>(order: &Order, number: u64, steps: &mut Steps<L>) -> Option<usize>
    ensures some { IfSome result (λ key. has_pair (number, key) order.now.pairs ≡ true) }
    ensures none { IfNone result ((key : ℕ) → has_pair (number, key) order.now.pairs ≡ false) }
    ensures cost { steps.new ≡ steps.old + 2 }
{
    let at = order.find((number, 0), steps);
    match order.get(at, steps) {
        Some(pair) if pair.0 == number => Some(pair.1),
        _ => None,
    }
}
