ghost use Rattle.std.specs.Prelude.{◌≡◌, ℕ, true, false, Some, ◌+◌, ◌-◌, ◌*◌, ◌^◌, ◌<◌, ◌≤◌, [], ◌∷◌, ◌++◌, length, min, max, IfOk, IsTrue, vec_len, vec_capacity};
ghost use Rattle.mj_base.specs.Rising.{Rose};
ghost use Rattle.mj_disk.specs.Content.{IsImage, settled, spliced, written, touched};
ghost use Rattle.mj_disk.specs.Images.{chosen_image};
ghost use Rattle.mj_disk.specs.DiskModel.{begun, changed, latest, Now};
ghost use Rattle.mj_disk.specs.Entries.{history_of};

use super::entry::Entry;
use super::image::marked;
use super::{Disk, DiskFailed, SIZE_LIMIT};
use mj_base::{NoMemory, Octets};
use std::alloc::Global;

const RECORD: usize = 65_536;

/// A disk in memory, for tests: it keeps a record of its writes and syncs, and fails where it is told to.
#[derive(Drop)]
pub struct MemoryDisk {
    octets: Vec<u8>,
    synced: Vec<u8>,
    ranges: Vec<(u64, u64)>,
    start: Vec<u8>,
    entries: Vec<Entry>,
    kept: Vec<u8>,
    room: u64,
    failing: Vec<u64>,
    stop: Option<u64>,
    calls: u64,
    faults: u64,
    dirty: bool,
    failed: bool,
    ghost reads_now: { octets.items ≡ (history_of start.items entries.items kept.items).now.octets },
    ghost synced_then: { synced.items ≡ (history_of start.items entries.items kept.items).now.synced },
    ghost written_since: { ranges.items ≡ (history_of start.items entries.items kept.items).now.ranges },
    ghost clean: { dirty ≡ false → (history_of start.items entries.items kept.items).now ≡ settled octets.items },
    ghost recorded_before: { latest (history_of start.items entries.items kept.items).past ≤ calls },
    ghost small: { room < 2 ^ 62 },
    ghost fits: { vec_len octets ≤ room },
    ghost octets_room: { room ≤ vec_capacity octets },
    ghost synced_room: { room ≤ vec_capacity synced },
    ghost kept_fits: { vec_len kept ≤ 2 * room },
    ghost kept_room: { 2 * room ≤ vec_capacity kept },
    ghost entries_room: { 65536 ≤ vec_capacity entries },
    ghost ranges_room: { 65536 ≤ vec_capacity ranges },
    ghost ranges_fit: { vec_len ranges ≤ vec_len entries },
}

impl MemoryDisk {
    ghost use Rattle.mj_disk.specs.Recorded.{recorded};

    /// A disk with these bytes, all of them synced, and with room for so many bytes. The calls whose numbers,
    /// from 0, stand in `failing` fail, and after `stop` calls every call fails. All its memory is taken here:
    /// the room, and a record of 65,536 writes and syncs with twice as many written bytes as there is room.
    /// A write past the room, and a write or sync past the record, fails.
    #[tactic(auto, using(crate::proofs::Recording::record_steps))]
    pub fn new(
        alloc: Global,
        octets: Octets,
        room: u64,
        failing: Vec<u64>,
        stop: Option<u64>,
    ) -> Result<MemoryDisk, NoMemory>
        requires { length octets ≤ room }
        ensures told { IfOk result (λ disk. ⟦<MemoryDisk as Disk>⟧.told disk ≡ Some (begun octets)) }
        ensures time { IfOk result (λ disk. ⟦<MemoryDisk as Disk>⟧.time disk ≡ 0) }
        ensures room { IfOk result (λ disk. disk.room ≡ room) }
        ensures failing { IfOk result (λ disk. disk.failing ≡ failing) }
        ensures stop { IfOk result (λ disk. disk.stop ≡ stop) }
        ensures settled { IfOk result ⟦<MemoryDisk as Disk>⟧.settled_now }
        ensures failed { IfOk result (λ disk. ⟦<MemoryDisk as Disk>⟧.failed disk ≡ false) }
        ensures faults { IfOk result (λ disk. ⟦<MemoryDisk as Disk>⟧.faults disk ≡ 0) }
    {
        if room >= SIZE_LIMIT {
            return Err(NoMemory);
        }
        let size = room as usize;
        Ok(MemoryDisk {
            octets: copy_with_room(alloc, octets.as_slice(), size)?,
            synced: copy_with_room(alloc, octets.as_slice(), size)?,
            ranges: Vec::with_capacity(alloc, RECORD)?,
            start: Vec::from_slice(alloc, octets.as_slice())?,
            entries: Vec::with_capacity(alloc, RECORD)?,
            kept: Vec::with_capacity(alloc, 2 * size)?,
            room,
            failing,
            stop,
            calls: 0,
            faults: 0,
            dirty: false,
            failed: false,
        })
    }

    /// What a read gives.
    pub fn as_slice(&self) -> &[u8]
        ensures { Now (⟦<MemoryDisk as Disk>⟧.told self.now) (λ held. result.now ≡ held.octets) }
    {
        self.octets.as_slice()
    }

    /// How many images `image` gives.
    pub fn images(&self) -> u32
        ensures { result ≡ 3 }
    {
        3
    }

    /// One of three images that a crash now may leave: what a read gives, what stood there at the last good
    /// sync, and what a read gives with each byte that was written since as `FF`.
    pub fn image(&self, alloc: Global, k: u32) -> Result<Octets, NoMemory>
        requires { k < 3 }
        ensures chosen { IfOk result (λ image. Now (⟦<MemoryDisk as Disk>⟧.told self.now) (λ held. image ≡ chosen_image k held)) }
        ensures left { IfOk result (λ image. Now (⟦<MemoryDisk as Disk>⟧.told self.now) (λ held. IsImage held image)) }
    {
        let image = self.choose(alloc, k)?;
        Ok(image)
    }

    fn choose(&self, alloc: Global, k: u32) -> Result<Octets, NoMemory>
        requires { k < 3 }
        ensures { IfOk result (λ image. image ≡ chosen_image k (recorded self.now).now) }
    {
        let mut image = Octets::new(alloc);
        match k {
            0 => image.push_all(&self.octets)?,
            1 => image.push_all(&self.synced)?,
            _ => image.push_all(&marked(alloc, &self.octets, &self.ranges)?)?,
        }
        Ok(image)
    }

    /// Whether there is room for a write, in the disk and in its record.
    fn has_room(&self, at: u64, len: usize) -> bool
        requires { at ≤ vec_len self.now.octets }
        ensures { IsTrue result → (at + len ≤ self.now.room) × (vec_len self.now.kept + len ≤ 2 * self.now.room) }
    {
        len as u64 <= self.room - at && len <= 2 * self.room as usize - self.kept.len()
    }

    /// Writes, at the moment of the call that is being made.
    #[tactic(auto, using(crate::proofs::Recording::record_steps))]
    fn put(&mut self, at: u64, octets: &[u8])
        requires inside { at ≤ vec_len self.old.octets }
        requires room { at + length octets.now ≤ self.old.room }
        requires kept { vec_len self.old.kept + length octets.now ≤ 2 * self.old.room }
        requires record { vec_len self.old.entries < 65536 }
        ensures history { recorded self.new ≡ changed self.old.calls (written at octets.now (recorded self.old).now) (recorded self.old) }
        ensures calls { self.new.calls ≡ self.old.calls }
        ensures faults { self.new.faults ≡ self.old.faults }
        ensures dirty { self.new.dirty ≡ true }
        ensures failed { self.new.failed ≡ self.old.failed }
    {
        let len = octets.len() as u64;
        splice(&mut self.octets, at as usize, octets);
        append_within(&mut self.kept, octets);
        push_within(
            &mut self.entries,
            Entry::Wrote {
                moment: self.calls,
                at,
                len,
            },
        );
        push_within(&mut self.ranges, (at, len));
        self.dirty = true;
    }

    /// Counts a range as written, at the moment of the call that is being made.
    #[tactic(auto, using(crate::proofs::Recording::record_steps))]
    fn touch(&mut self, at: u64, len: u64)
        requires { vec_len self.old.entries < 65536 }
        ensures history { recorded self.new ≡ changed self.old.calls (touched at len (recorded self.old).now) (recorded self.old) }
        ensures calls { self.new.calls ≡ self.old.calls }
        ensures faults { self.new.faults ≡ self.old.faults }
        ensures failed { self.new.failed ≡ self.old.failed }
    {
        push_within(
            &mut self.entries,
            Entry::Touched {
                moment: self.calls,
                at,
                len,
            },
        );
        push_within(&mut self.ranges, (at, len));
        self.dirty = true;
    }

    /// All that is held becomes synced, at the moment of the call that is being made.
    #[tactic(auto, using(crate::proofs::Recording::record_steps))]
    fn settle(&mut self)
        requires { vec_len self.old.entries < 65536 }
        ensures history { recorded self.new ≡ changed self.old.calls (settled (recorded self.old).now.octets) (recorded self.old) }
        ensures calls { self.new.calls ≡ self.old.calls }
        ensures faults { self.new.faults ≡ self.old.faults }
        ensures clean { self.new.dirty ≡ false }
    {
        push_within(&mut self.entries, Entry::Synced { moment: self.calls });
        self.synced.clear();
        append_within(&mut self.synced, self.octets.as_slice());
        self.ranges.clear();
        self.dirty = false;
    }
}

impl Disk for MemoryDisk {
    ghost use Rattle.std.specs.Prelude.{◌≡◌, Some, false};
    ghost use Rattle.mj_disk.specs.Recorded.{recorded};
    ghost use Rattle.mj_disk.specs.DiskModel.{latest};
    ghost use Rattle.mj_disk.specs.Laws.{some_told, recorded_reads, recorded_settled, recorded_in_time};

    ghost told = { λ d. Some (recorded d) };

    ghost time = { λ d. d.calls };

    ghost settled_now = { λ d. d.dirty ≡ false };

    ghost failed = { λ d. d.failed };

    ghost faults = { λ d. d.faults };

    ghost unsettled_by_failure = { λ d none. some_told (recorded d) none };

    ghost settled_told = { λ d history is clean. recorded_settled (recorded d) d.octets.items history is d.reads_now (d.clean clean) };

    ghost in_time = { λ d history is. recorded_in_time (recorded d) (λ h. latest h.past ≤ d.calls) history is d.recorded_before };

    ghost reads_image = { λ d history is. recorded_reads d.start.items d.entries.items d.kept.items history is };

    fn size(&mut self) -> Result<u64, DiskFailed> {
        let call = next_call(&mut self.calls);
        if is_due(&self.failing, self.stop, call) {
            return Err(fail(&mut self.faults, &mut self.failed));
        }
        Ok(self.octets.len() as u64)
    }

    fn read(&mut self, at: u64, into: &mut [u8]) -> Result<(), DiskFailed> {
        let call = next_call(&mut self.calls);
        if is_due(&self.failing, self.stop, call) {
            return Err(fail(&mut self.faults, &mut self.failed));
        }
        let from = at as usize;
        let len = into.len();
        into.copy_from_slice(&self.octets[from..from + len]);
        Ok(())
    }

    fn write(&mut self, at: u64, octets: &[u8]) -> Result<(), DiskFailed> {
        let call = next_call(&mut self.calls);
        if call == u64::MAX || self.entries.len() >= RECORD {
            return Err(fail(&mut self.faults, &mut self.failed));
        }
        if is_due(&self.failing, self.stop, call) || !self.has_room(at, octets.len()) {
            self.touch(at, octets.len() as u64);
            return Err(fail(&mut self.faults, &mut self.failed));
        }
        self.put(at, octets);
        Ok(())
    }

    fn sync(&mut self) -> Result<(), DiskFailed> {
        let call = next_call(&mut self.calls);
        if is_due(&self.failing, self.stop, call) {
            return Err(fail(&mut self.faults, &mut self.failed));
        }
        if !self.dirty {
            self.failed = false;
            return Ok(());
        }
        if call == u64::MAX || self.entries.len() >= RECORD {
            return Err(fail(&mut self.faults, &mut self.failed));
        }
        self.settle();
        self.failed = false;
        Ok(())
    }

    fn moment(&self) -> u64 {
        self.calls
    }
}

/// Counts a call, and gives its number.
fn next_call(calls: &mut u64) -> u64
    ensures number { result ≡ calls.old }
    ensures counted { calls.new ≡ min (calls.old + 1) (2 ^ 64 - 1) }
{
    let call = *calls;
    *calls = call.saturating_add(1);
    call
}

/// Whether the call of this number is to fail. The last number is never passed, so its calls fail.
fn is_due(failing: &[u64], stop: Option<u64>, call: u64) -> bool {
    if failing.contains(&call) || call == u64::MAX {
        return true;
    }
    match stop {
        Some(stop) => stop <= call,
        None => false,
    }
}

fn fail(faults: &mut u64, failed: &mut bool) -> DiskFailed
    ensures rose { Rose faults.old faults.new }
    ensures later { faults.old ≤ faults.new }
    ensures failed { failed.new ≡ true }
{
    *faults = faults.saturating_add(1);
    *failed = true;
    DiskFailed
}

fn copy_with_room(alloc: Global, octets: &[u8], room: usize) -> Result<Vec<u8>, NoMemory>
    requires { length octets.now ≤ room }
    ensures items { IfOk result (λ copy. copy.items ≡ octets.now) }
    ensures len { IfOk result (λ copy. vec_len copy ≡ length octets.now) }
    ensures capacity { IfOk result (λ copy. room ≤ vec_capacity copy) }
{
    let mut copy = Vec::with_capacity(alloc, room)?;
    append_within(&mut copy, octets);
    Ok(copy)
}

fn push_within<T: Drop>(list: &mut Vec<T>, item: T)
    requires { vec_len list.old < vec_capacity list.old }
    ensures items { list.new.items ≡ list.old.items ++ item ∷ [] }
    ensures len { vec_len list.new ≡ vec_len list.old + 1 }
    ensures capacity { vec_capacity list.old ≤ vec_capacity list.new }
{
    let _ = list.push(item);
}

fn append_within(list: &mut Vec<u8>, more: &[u8])
    requires { vec_len list.old + length more.now ≤ vec_capacity list.old }
    ensures items { list.new.items ≡ list.old.items ++ more.now }
    ensures len { vec_len list.new ≡ vec_len list.old + length more.now }
    ensures capacity { vec_capacity list.old ≤ vec_capacity list.new }
{
    let _ = list.extend_from_slice(more);
}

/// Writes over what is there, and past its end.
fn splice(octets: &mut Vec<u8>, at: usize, new: &[u8])
    requires inside { at ≤ vec_len octets.old }
    requires room { at + length new.now ≤ vec_capacity octets.old }
    ensures items { octets.new.items ≡ spliced at new.now octets.old.items }
    ensures len { vec_len octets.new ≡ max (vec_len octets.old) (at + length new.now) }
    ensures capacity { vec_capacity octets.old ≤ vec_capacity octets.new }
{
    let over = new.len().min(octets.len() - at);
    octets.as_mut_slice()[at..at + over].copy_from_slice(&new[..over]);
    append_within(octets, &new[over..]);
}
