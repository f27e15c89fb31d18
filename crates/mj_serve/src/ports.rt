ghost use Rattle.std.specs.Prelude.{◌≡◌, ◌<◌, ◌≤◌, ℕ, Bool, true, false, List, [], ◌∷◌, ◌++◌, IfOk, OnErr};
ghost use Rattle.mj_base.specs.EventBounds.{IsWithin};
ghost use Rattle.mj_base.specs.declared.event.Event.{Event as AnyEvent};
ghost use Rattle.mj_base.specs.declared.event.Out.TheVariants as outs;
ghost use Rattle.mj_keeper.specs.Standing.{MayPut};
ghost use Rattle.mj_serve.specs.Given.{Entry, entry_at, is_stop, taken_as};

use mj_base::{Event, NoMemory, Note, Octets, Reason};
use mj_disk::Disk;

/// Where the broker's events come from, and where what it does goes.
pub trait Ports {
    /// Since the first of these ports these events were taken, and these entries given.
    ghost stand: { Self → Self → List AnyEvent → List Entry → Type 0 };

    /// So many events come at most, before the end.
    ghost left: { Self → ℕ };

    /// The end was given.
    ghost stopped: { Self → Bool };

    ghost lanes_in: { Self → ℕ };

    fn lanes(&self) -> u32
        ensures { result ≡ lanes_in self.now };

    /// The next event; `Stop` where there is none.
    fn next(&mut self) -> Result<Event, NoMemory>
        requires { stopped self.old ≡ false }
        ensures gives { IfOk result (λ event. (origin : Self) (taken : List AnyEvent) (given : List Entry) → stand origin self.old taken given → stand origin self.new (taken ++ taken_as event) given) }
        ensures keeps { OnErr result ((origin : Self) (taken : List AnyEvent) (given : List Entry) → stand origin self.old taken given → stand origin self.new taken given) }
        ensures within { IfOk result (λ event. IsWithin (lanes_in self.old) event) }
        ensures stopped { IfOk result (λ event. stopped self.new ≡ is_stop event) }
        ensures unstopped { OnErr result (stopped self.new ≡ false) }
        ensures fewer { IfOk result (λ event. is_stop event ≡ false → left self.new < left self.old) }
        ensures no_more { left self.new ≤ left self.old }
        ensures lanes { lanes_in self.new ≡ lanes_in self.old };

    /// Sends a piece to the lane's peer. What the broker kept before is on the disk, unless a call of the disk has failed
    /// since it was last synced.
    fn put<D: Disk>(&mut self, lane: u32, piece: Octets, disk: &D)
        requires { MayPut D.Disk disk.now }
        ensures takes { (origin : Self) (taken : List AnyEvent) (given : List Entry) → stand origin self.old taken given → stand origin self.new taken (given ++ entry_at (D.time disk.now) (outs.Piece lane piece) ∷ []) }
        ensures stopped { stopped self.new ≡ stopped self.old }
        ensures no_more { left self.new ≤ left self.old }
        ensures lanes { lanes_in self.new ≡ lanes_in self.old };

    /// Ends the lane's connection, with the reason and the place in bytes, or the number, that goes with it.
    fn end(&mut self, lane: u32, reason: Reason, at: u64)
        ensures takes { (origin : Self) (taken : List AnyEvent) (given : List Entry) → stand origin self.old taken given → stand origin self.new taken (given ++ entry_at 0 (outs.End lane reason at) ∷ []) }
        ensures stopped { stopped self.new ≡ stopped self.old }
        ensures no_more { left self.new ≤ left self.old }
        ensures lanes { lanes_in self.new ≡ lanes_in self.old };

    /// Tells what became of the store.
    fn note(&mut self, note: Note)
        ensures takes { (origin : Self) (taken : List AnyEvent) (given : List Entry) → stand origin self.old taken given → stand origin self.new taken (given ++ entry_at 0 (outs.Note note) ∷ []) }
        ensures stopped { stopped self.new ≡ stopped self.old }
        ensures no_more { left self.new ≤ left self.old }
        ensures lanes { lanes_in self.new ≡ lanes_in self.old };
}
