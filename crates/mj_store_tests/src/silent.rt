ghost use Rattle.std.specs.Prelude.{◌≡◌, true, false, None, ◌+◌, ◌^◌, ◌<◌, ◌≤◌, IsTrue, IfOk, length};
ghost use Rattle.mj_base.specs.Rising.{Rose};
ghost use Rattle.mj_store.specs.Standing.{StoreValue, IsHeld};

use mj_disk::{Disk, DiskFailed, SIZE_LIMIT};
use std::alloc::{AllocError, Global};

/// A disk in memory that doesn't tell what it holds, so that somebody else may write it.
#[derive(Drop)]
pub struct SilentDisk {
    octets: Vec<u8>,
    settled: bool,
    failed: bool,
    faults: u64,
    ghost unsettled: { failed ≡ true → settled ≡ false },
}

impl SilentDisk {
    pub fn new(alloc: Global, octets: &[u8]) -> Result<SilentDisk, AllocError> {
        Ok(SilentDisk {
            octets: Vec::from_slice(alloc, octets)?,
            settled: false,
            failed: false,
            faults: 0,
        })
    }

    /// Somebody else writes a byte, which no store notices before it reads it.
    pub fn change(&mut self, at: usize, octet: u8)
        ensures { (store : StoreValue) → IsHeld ⟦<SilentDisk as Disk>⟧ store self.old → IsHeld ⟦<SilentDisk as Disk>⟧ store self.new }
    {
        set(&mut self.octets, at, octet);
    }
}

fn set(octets: &mut Vec<u8>, at: usize, octet: u8) {
    if at < octets.len() {
        octets[at] = octet;
    }
}

impl Disk for SilentDisk {
    ghost use Rattle.std.specs.Prelude.{◌≡◌, true, None};
    ghost use Rattle.mj_disk.specs.Laws.{none_told, settled_failed};

    ghost told = { λ _. None };

    ghost time = { λ _. 0 };

    ghost settled_now = { λ d. d.settled ≡ true };

    ghost failed = { λ d. d.failed };

    ghost faults = { λ d. d.faults };

    ghost unsettled_by_failure = { λ d none is clean. settled_failed d.settled d.failed d.unsettled is clean };

    ghost settled_told = { λ d history is settled. none_told history is };

    ghost in_time = { λ d history is. none_told history is };

    ghost reads_image = { λ d history is. none_told history is };

    fn size(&mut self) -> Result<u64, DiskFailed> {
        let size = self.octets.len() as u64;
        if size < SIZE_LIMIT {
            Ok(size)
        } else {
            Err(fail(&mut self.faults, &mut self.failed, &mut self.settled))
        }
    }

    fn read(&mut self, at: u64, into: &mut [u8]) -> Result<(), DiskFailed> {
        if get(&self.octets, at as usize, into) {
            Ok(())
        } else {
            Err(fail(&mut self.faults, &mut self.failed, &mut self.settled))
        }
    }

    fn write(&mut self, at: u64, octets: &[u8]) -> Result<(), DiskFailed> {
        self.settled = false;
        if put(&mut self.octets, at, octets) {
            Ok(())
        } else {
            Err(fail(&mut self.faults, &mut self.failed, &mut self.settled))
        }
    }

    fn sync(&mut self) -> Result<(), DiskFailed> {
        self.settled = true;
        self.failed = false;
        Ok(())
    }

    fn moment(&self) -> u64 {
        0
    }
}

fn fail(faults: &mut u64, failed: &mut bool, settled: &mut bool) -> DiskFailed
    ensures rose { Rose faults.old faults.new }
    ensures later { faults.old ≤ faults.new }
    ensures failed { failed.new ≡ true }
    ensures unsettled { settled.new ≡ false }
{
    *faults = faults.saturating_add(1);
    *failed = true;
    *settled = false;
    DiskFailed
}

/// Whether there are so many bytes at the offset, which are then copied.
fn get(octets: &[u8], at: usize, into: &mut [u8]) -> bool {
    if at > octets.len() || into.len() > octets.len() - at {
        return false;
    }
    into.copy_from_slice(&octets[at..at + into.len()]);
    true
}

/// Whether the bytes can be written.
fn put(kept: &mut Vec<u8>, at: u64, octets: &[u8]) -> bool
    ensures { IsTrue result → at + length octets.now < 2 ^ 62 }
{
    if at >= SIZE_LIMIT || octets.len() as u64 >= SIZE_LIMIT - at {
        return false;
    }
    let from = at as usize;
    let end = from + octets.len();
    if kept.len() < end {
        let Ok(()) = kept.resize(end, 0) else {
            return false;
        };
    }
    kept[from..end].copy_from_slice(octets);
    true
}
