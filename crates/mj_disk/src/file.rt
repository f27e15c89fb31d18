ghost use Rattle.std.specs.Prelude.{◌≡◌, true, false, None, ◌+◌, ◌^◌, ◌<◌, ◌≤◌, length, IfOk, OnOk};
ghost use Rattle.mj_base.specs.Rising.{Rose};

use super::{Disk, DiskFailed, SIZE_LIMIT};
use std::fs::{File, OpenFile};
use std::io::{self, ErrorKind};
use std::os::unix::fs::FileExt;
use std::rt::Files;

/// A disk over a file, which is opened, or made where there is none, at its first call. It doesn't tell what it
/// holds.
#[derive(Drop)]
pub struct FileDisk<R: Files + Drop> {
    rt: R,
    path: String,
    file: Option<R::File>,
    settled: bool,
    failed: bool,
    faults: u64,
    ghost unsettled: { failed ≡ true → settled ≡ false },
}

impl<R: Files + Drop> FileDisk<R>
where
    R::File: FileExt,
{
    /// A disk over the file at this path, which isn't opened yet.
    pub fn new(rt: R, path: String) -> FileDisk<R>
        ensures path { result.path ≡ path }
        ensures closed { result.file ≡ None }
        ensures told { ⟦<FileDisk<R> as Disk>⟧.told result ≡ None }
        ensures unsettled { ¬ ⟦<FileDisk<R> as Disk>⟧.settled_now result }
        ensures unfailed { ⟦<FileDisk<R> as Disk>⟧.failed result ≡ false }
        ensures faults { ⟦<FileDisk<R> as Disk>⟧.faults result ≡ 0 }
    {
        FileDisk {
            rt,
            path,
            file: None,
            settled: false,
            failed: false,
            faults: 0,
        }
    }
}

impl<R: Files + Drop> Disk for FileDisk<R>
where
    R::File: FileExt,
{
    ghost use Rattle.std.specs.Prelude.{◌≡◌, true, None};
    ghost use Rattle.mj_disk.specs.Laws.{none_told, settled_failed};

    ghost told = { λ _. None };

    ghost time = { λ _. 0 };

    ghost settled_now = { λ d. d.settled ≡ true };

    ghost failed = { λ d. d.failed };

    ghost faults = { λ d. d.faults };

    ghost unsettled_by_failure = { λ d none is clean. settled_failed d.settled d.failed d.unsettled is clean };

    ghost settled_told = { λ d history is settled. none_told history is };

    ghost in_time = { λ d history is. none_told history is };

    ghost reads_image = { λ d history is. none_told history is };

    fn size(&mut self) -> Result<u64, DiskFailed> {
        match size_of(&self.rt, self.path.as_str(), &mut self.file) {
            Ok(size) => Ok(size),
            Err(_) => Err(fail(&mut self.faults, &mut self.failed, &mut self.settled)),
        }
    }

    fn read(&mut self, at: u64, into: &mut [u8]) -> Result<(), DiskFailed> {
        match read_at(&self.rt, self.path.as_str(), &mut self.file, at, into) {
            Ok(()) => Ok(()),
            Err(_) => Err(fail(&mut self.faults, &mut self.failed, &mut self.settled)),
        }
    }

    fn write(&mut self, at: u64, octets: &[u8]) -> Result<(), DiskFailed> {
        self.settled = false;
        match write_at(&self.rt, self.path.as_str(), &mut self.file, at, octets) {
            Ok(()) => Ok(()),
            Err(_) => Err(fail(&mut self.faults, &mut self.failed, &mut self.settled)),
        }
    }

    fn sync(&mut self) -> Result<(), DiskFailed> {
        match sync_all(&self.rt, self.path.as_str(), &mut self.file) {
            Ok(()) => {
                self.settled = true;
                self.failed = false;
                Ok(())
            }
            Err(_) => Err(fail(&mut self.faults, &mut self.failed, &mut self.settled)),
        }
    }

    fn moment(&self) -> u64 {
        0
    }
}

fn fail(faults: &mut u64, failed: &mut bool, settled: &mut bool) -> DiskFailed
    ensures rose { Rose faults.old faults.new }
    ensures later { faults.old ≤ faults.new }
    ensures failed { failed.new ≡ true }
    ensures unsettled { settled.new ≡ false }
{
    *faults = faults.saturating_add(1);
    *failed = true;
    *settled = false;
    DiskFailed
}

/// Opens the file where it isn't open yet.
fn open_once<R: Files>(rt: &R, path: &str, file: &mut Option<R::File>) -> io::Result<()> {
    if file.is_none() {
        let opened = File::options()
            .read(true)
            .write(true)
            .create(true)
            .open(rt, path)?;
        *file = Some(opened);
    }
    Ok(())
}

fn size_of<R: Files>(rt: &R, path: &str, file: &mut Option<R::File>) -> io::Result<u64>
    ensures { IfOk result (λ size. size < 2 ^ 62) }
{
    open_once(rt, path, file)?;
    match file {
        Some(open) => {
            let size = open.metadata()?.len();
            if size < SIZE_LIMIT {
                Ok(size)
            } else {
                Err(ErrorKind::InvalidInput.into())
            }
        }
        None => Err(ErrorKind::NotFound.into()),
    }
}

fn read_at<R: Files>(
    rt: &R,
    path: &str,
    file: &mut Option<R::File>,
    at: u64,
    into: &mut [u8],
) -> io::Result<()>
where
    R::File: FileExt,
{
    open_once(rt, path, file)?;
    match file {
        Some(open) => open.read_exact_at(into, at),
        None => Err(ErrorKind::NotFound.into()),
    }
}

fn write_at<R: Files>(
    rt: &R,
    path: &str,
    file: &mut Option<R::File>,
    at: u64,
    octets: &[u8],
) -> io::Result<()>
where
    R::File: FileExt,
    ensures { OnOk result (at + length octets.now < 2 ^ 62) }
{
    if at >= SIZE_LIMIT || octets.len() as u64 >= SIZE_LIMIT - at {
        return Err(ErrorKind::InvalidInput.into());
    }
    open_once(rt, path, file)?;
    match file {
        Some(open) => open.write_all_at(octets, at),
        None => Err(ErrorKind::NotFound.into()),
    }
}

fn sync_all<R: Files>(rt: &R, path: &str, file: &mut Option<R::File>) -> io::Result<()> {
    open_once(rt, path, file)?;
    match file {
        Some(open) => open.sync_all(),
        None => Err(ErrorKind::NotFound.into()),
    }
}
