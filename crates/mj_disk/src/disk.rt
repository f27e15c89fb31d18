ghost use Rattle.std.specs.Prelude.{◌≡◌, ℕ, Bool, true, false, Some, None, Option, is_some, ◌+◌, ◌^◌, ◌<◌, ◌≤◌, length, take, drop, OnOk, OnErr, IfOk};
ghost use Rattle.mj_base.specs.Rising.{Rose};
ghost use Rattle.mj_disk.specs.Content.{IsImage, settled, written};
ghost use Rattle.mj_disk.specs.DiskModel.{History, latest, Now, Becomes, Turns, Changes, Touches, SpoilsAt, Syncs, IsSettled};

/// A call of a disk failed.
#[derive(Clone, Copy, Debug, PartialEq, Eq)]
pub struct DiskFailed;

/// A disk's size, in bytes, stays below this.
pub const SIZE_LIMIT: u64 = 1 << 62;

/// A disk, of which a crash between two syncs may leave any bytes where it was written, and any size between.
/// Nobody else writes it.
pub trait Disk {
    /// What it holds and has held, where the disk tells.
    ghost told: { Self → Option History };

    /// The moment, as a number that doesn't fall.
    ghost time: { Self → ℕ };

    /// A crash now leaves exactly what a read gives. Every disk tells.
    ghost settled_now: { Self → Type 0 };

    /// A call failed since the last good sync. Every disk tells.
    ghost failed: { Self → Bool };

    /// How many calls have failed. It never falls, and stops at its greatest value.
    ghost faults: { Self → ℕ };

    /// The size in bytes.
    fn size(&mut self) -> Result<u64, DiskFailed>
        ensures small { IfOk result (λ size. size < 2 ^ 62) }
        ensures size { IfOk result (λ size. Now (told self.old) (λ held. size ≡ length held.octets)) }
        ensures same { told self.new ≡ told self.old }
        ensures settled { OnOk result (settled_now self.old → settled_now self.new) }
        ensures later { time self.old ≤ time self.new }
        ensures failed { OnErr result (failed self.new ≡ true) }
        ensures unfailed { OnOk result (failed self.new ≡ failed self.old) }
        ensures count { faults self.old ≤ faults self.new }
        ensures cause { OnErr result (Rose (faults self.old) (faults self.new)) };

    /// Reads the bytes from an offset on into the whole of `into`.
    fn read(&mut self, at: u64, into: &mut [u8]) -> Result<(), DiskFailed>
        requires { Now (told self.old) (λ held. at + length into.old ≤ length held.octets) }
        ensures octets { OnOk result (Now (told self.old) (λ held. into.new ≡ take (length into.old) (drop at held.octets))) }
        ensures same { told self.new ≡ told self.old }
        ensures settled { OnOk result (settled_now self.old → settled_now self.new) }
        ensures later { time self.old ≤ time self.new }
        ensures failed { OnErr result (failed self.new ≡ true) }
        ensures unfailed { OnOk result (failed self.new ≡ failed self.old) }
        ensures count { faults self.old ≤ faults self.new }
        ensures cause { OnErr result (Rose (faults self.old) (faults self.new)) };

    /// Writes over what is there, and past the end. A write whose end would be at `SIZE_LIMIT` or behind it fails.
    fn write(&mut self, at: u64, octets: &[u8]) -> Result<(), DiskFailed>
        requires { Now (told self.old) (λ held. at ≤ length held.octets) }
        ensures written { OnOk result (Becomes (written at octets.now) (told self.old) (told self.new)) }
        ensures within { OnOk result (at + length octets.now < 2 ^ 62) }
        ensures spoiled { OnErr result (Turns (SpoilsAt at (length octets.now)) (told self.old) (told self.new)) }
        ensures unsettled { OnOk result (¬ settled_now self.new) }
        ensures telling { is_some (told self.new) ≡ is_some (told self.old) }
        ensures crash { Changes (Touches at (length octets.now)) (time self.old, time self.new) (told self.old) (told self.new) }
        ensures later { time self.old ≤ time self.new }
        ensures failed { OnErr result (failed self.new ≡ true) }
        ensures unfailed { OnOk result (failed self.new ≡ failed self.old) }
        ensures count { faults self.old ≤ faults self.new }
        ensures cause { OnErr result (Rose (faults self.old) (faults self.new)) };

    /// After it, a crash leaves what a read gives. A sync that fails syncs nothing.
    fn sync(&mut self) -> Result<(), DiskFailed>
        ensures synced { OnOk result (Becomes (λ held. settled held.octets) (told self.old) (told self.new)) }
        ensures unsynced { OnErr result (told self.new ≡ told self.old) }
        ensures telling { is_some (told self.new) ≡ is_some (told self.old) }
        ensures crash { Changes Syncs (time self.old, time self.new) (told self.old) (told self.new) }
        ensures settled { OnOk result (settled_now self.new) }
        ensures later { time self.old ≤ time self.new }
        ensures failed { OnErr result (failed self.new ≡ true) }
        ensures unfailed { OnOk result (failed self.new ≡ false) }
        ensures count { faults self.old ≤ faults self.new }
        ensures cause { OnErr result (Rose (faults self.old) (faults self.new)) };

    /// The moment. A real file tells 0.
    fn moment(&self) -> u64
        ensures { result ≡ time self.now };

    /// A disk that doesn't tell what it holds isn't settled behind a failed call, up to the next good sync.
    ghost unsettled_by_failure: { (disk : Self) → told disk ≡ None → failed disk ≡ true → ¬ settled_now disk };

    ghost settled_told: { (disk : Self) (history : History) → told disk ≡ Some history → settled_now disk → IsSettled history.now };

    ghost in_time: { (disk : Self) (history : History) → told disk ≡ Some history → latest history.past ≤ time disk };

    /// What a read gives is one of the images.
    ghost reads_image: { (disk : Self) (history : History) → told disk ≡ Some history → IsImage history.now history.now.octets };
}
