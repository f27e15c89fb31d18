ghost use Rattle.std.specs.Prelude.{◌≡◌, true, false, None, Some, is_some, ◌+◌, ◌^◌, ◌<◌, ◌≤◌, ◌++◌, ◌∷◌, [], ℕ, length, take, drop, IfOk, IfErr, OnOk, OnErr, IsErrOf, MatchOption, IfSome, MatchBool, get_or, vec_len};
ghost use Rattle.mj_base.specs.Rising.{Rose};
ghost use Rattle.mj_disk.specs.Content.{IsImage, settled, touched};
ghost use Rattle.mj_disk.specs.DiskModel.{Now, Becomes, Turns, SpoilsAt, CrashesAs};
ghost use Rattle.mj_journal.specs.FileText.{IsHeader, IsPayload, length_octets, header_2};
ghost use Rattle.mj_journal.specs.Opening.{IsNotBegun, IsBeginFault, IsNextFault, IsNotNext, SaveAtDiskFault, IsReadTo, ReadsOne, ReadsAll, Begins, IsUntouched, KeepsFile, IsImageOrOpensAlike, MayBeWhole, IsEmptyWith};
ghost use Rattle.mj_journal.specs.Appending.{EndsAt};

use super::header::{new_file, read_empty, read_header};
use super::{Journal, OpenFault};
use mj_base::{NoMemory, Octets};
use mj_disk::{Disk, DiskFailed, write_synced};
use std::alloc::Global;

/// A file of at most so many bytes may be made anew.
const SHORT: u64 = 17;

const MAX_PAYLOAD: u32 = 2_097_152;

/// A file that is being opened: its payloads are read one after another.
#[derive(Drop)]
pub struct Opening {
    base: u64,
    next: u64,
    last: u64,
    size: u64,
    done: bool,
    ghost inside: { next < size },
    ghost small: { size < 2 ^ 62 },
}

impl Opening {
    /// Syncs the disk and reads the header. A file of at most 17 bytes that isn't exactly a header and a closed
    /// gate is made anew, in format 2 with this base, from 1 to 2^61.
    pub fn begin<D: Disk>(disk: &mut D, base: u64) -> Result<Opening, OpenFault>
        requires low { 1 ≤ base }
        requires high { base ≤ 2 ^ 61 }

        ensures begun { IfOk result (λ opening. Begins base opening.base opening.size (D.told disk.old) (D.told disk.new)) }
        ensures based { IfOk result (λ opening. (1 ≤ opening.base) × (opening.base ≤ 2 ^ 61)) }
        ensures first { IfOk result (λ opening. (opening.next ≡ 16) × (opening.done ≡ false)) }
        ensures settled { OnOk result (D.settled_now disk.new) }
        ensures unfailed { OnOk result (D.failed disk.new ≡ false) }

        // The file is as `next` asks.
        ensures size { IfOk result (λ opening. Now (D.told disk.new) (λ held. opening.size ≡ length held.octets)) }
        ensures ready { IfOk result (λ opening. Now (D.told disk.new) (IsReadTo opening.base opening.next)) }

        // Whatever the answer is, bytes that aren't short are as they were.
        ensures kept { Turns KeepsFile (D.told disk.old) (D.told disk.new) }

        ensures refused { IfErr result (λ fault. Now (D.told disk.old) (IsNotBegun fault)) }
        ensures kind { IfErr result IsBeginFault }
        ensures cause { IsErrOf result OpenFault.DiskFault → Rose (D.faults disk.old) (D.faults disk.new) }
        ensures failed { IsErrOf result OpenFault.DiskFault → D.failed disk.new ≡ true }
        ensures still { IfErr result (SaveAtDiskFault (D.settled_now disk.new × (D.failed disk.new ≡ false))) }

        // A crash at any moment of the call leaves an image of before, or, of a short file, one that is short too
        // and opens as no payloads.
        ensures crash { CrashesAs IsImageOrOpensAlike (D.time disk.old, D.time disk.new) (D.told disk.old) (D.told disk.new) }

        ensures telling { is_some (D.told disk.new) ≡ is_some (D.told disk.old) }
        ensures later { D.time disk.old ≤ D.time disk.new }
        ensures count { D.faults disk.old ≤ D.faults disk.new }
    {
        let Ok(size) = settle(disk) else {
            return Err(OpenFault::DiskFault);
        };
        if is_long(size) {
            return open_long(disk, size);
        }
        let Ok(found) = find_short(disk, size) else {
            return Err(OpenFault::DiskFault);
        };
        let Some(found) = found else {
            return make(disk, base);
        };
        Ok(Opening {
            base: found,
            next: 16,
            last: 16,
            size: 17,
            done: false,
        })
    }

    /// Replaces `payload` by the next payload, or answers false at the closed gate. Where it doesn't answer true,
    /// `payload` stays as it was. After a fault the opening is given up.
    pub fn next<D: Disk>(
        &mut self,
        alloc: Global,
        disk: &mut D,
        payload: &mut Octets,
    ) -> Result<bool, OpenFault>
        requires size { Now (D.told disk.old) (λ held. self.old.size ≡ length held.octets) }
        requires file { Now (D.told disk.old) (IsReadTo self.old.base self.old.next) }

        ensures read { IfOk result (λ more. more ≡ true → Now (D.told disk.old) (ReadsOne self.old.base self.old.next self.new.next payload.new)) }
        ensures payload { IfOk result (λ more. more ≡ true → IsPayload payload.new) }
        ensures place { IfOk result (λ more. more ≡ true → self.new.next ≡ self.old.next + (5 + length payload.new)) }
        ensures last { IfOk result (λ more. more ≡ true → self.new.last ≡ self.old.next) }

        ensures end { IfOk result (λ more. more ≡ false → Now (D.told disk.old) (ReadsAll self.old.base self.old.next)) }
        ensures stay { IfOk result (λ more. more ≡ false → (self.new.next ≡ self.old.next) × (self.new.last ≡ self.old.last)) }
        ensures done { IfOk result (λ more. more ≡ false → self.new.done ≡ true) }
        ensures untaken { IfOk result (λ more. more ≡ false → payload.new ≡ payload.old) }

        // At the closed gate the file is as an append asks that follows `finish`, and else as the next call asks.
        ensures closed { IfOk result (λ more. more ≡ false → Now (D.told disk.new) (EndsAt self.new.next)) }
        ensures sized { Now (D.told disk.new) (λ held. self.new.size ≡ length held.octets) }
        ensures ready { Now (D.told disk.new) (IsReadTo self.new.base self.new.next) }

        ensures refused { IfErr result (λ fault. Now (D.told disk.old) (IsNotNext self.old.next fault)) }
        ensures kind { IfErr result IsNextFault }
        ensures cause { IsErrOf result OpenFault.DiskFault → Rose (D.faults disk.old) (D.faults disk.new) }
        ensures failed { IsErrOf result OpenFault.DiskFault → D.failed disk.new ≡ true }
        ensures still { IfErr result (SaveAtDiskFault ((D.settled_now disk.old → D.settled_now disk.new) × (D.failed disk.new ≡ D.failed disk.old))) }
        ensures unchanged { OnErr result ((self.new ≡ self.old) × (payload.new ≡ payload.old)) }

        ensures base { self.new.base ≡ self.old.base }
        ensures size { self.new.size ≡ self.old.size }
        ensures same { D.told disk.new ≡ D.told disk.old }
        ensures telling { is_some (D.told disk.new) ≡ is_some (D.told disk.old) }
        ensures settled { OnOk result (D.settled_now disk.old → D.settled_now disk.new) }
        ensures unfailed { OnOk result (D.failed disk.new ≡ D.failed disk.old) }
        ensures later { D.time disk.old ≤ D.time disk.new }
        ensures count { D.faults disk.old ≤ D.faults disk.new }
    {
        let Ok(gate) = read_gate(disk, self.next) else {
            return Err(OpenFault::DiskFault);
        };
        if gate == 0 {
            self.done = true;
            return Ok(false);
        }
        let Ok(found) = find_record(disk, self.next, self.size) else {
            return Err(OpenFault::DiskFault);
        };
        let Some(len) = found else {
            return Err(OpenFault::Damaged(self.next));
        };
        let Ok(mut buffer) = zeros(alloc, len as usize) else {
            return Err(OpenFault::NoMemory);
        };
        let Ok(()) = disk.read(self.next + 5, buffer.as_mut_slice()) else {
            return Err(OpenFault::DiskFault);
        };
        *payload = Octets::from_vec(buffer);
        self.last = self.next;
        self.next += 5 + len as u64;
        Ok(true)
    }

    /// The offset of the gate in front of the last payload.
    pub fn gate(&self) -> u64
        ensures { result ≡ self.now.last }
    {
        self.last
    }

    /// The base of the file.
    pub fn base(&self) -> u64
        ensures { result ≡ self.now.base }
    {
        self.base
    }

    /// The journal, once `next` has answered false.
    pub fn finish(self) -> Journal
        requires { self.done ≡ true }
        ensures end { result.end ≡ self.next }
        ensures small { result.end < 2 ^ 62 }
        ensures unspent { result.spent ≡ false }
    {
        Journal {
            end: self.next,
            spent: false,
        }
    }
}

/// A sync, and then the size.
pub(crate) fn settle<D: Disk>(disk: &mut D) -> Result<u64, DiskFailed>
    ensures synced { OnOk result (Becomes (λ held. settled held.octets) (D.told disk.old) (D.told disk.new)) }
    ensures size { IfOk result (λ size. Now (D.told disk.old) (λ held. size ≡ length held.octets)) }
    ensures small { IfOk result (λ size. size < 2 ^ 62) }
    ensures kept { Turns IsUntouched (D.told disk.old) (D.told disk.new) }
    ensures settled { OnOk result (D.settled_now disk.new) }
    ensures unfailed { OnOk result (D.failed disk.new ≡ false) }
    ensures crash { CrashesAs IsImage (D.time disk.old, D.time disk.new) (D.told disk.old) (D.told disk.new) }
    ensures telling { is_some (D.told disk.new) ≡ is_some (D.told disk.old) }
    ensures failed { OnErr result (D.failed disk.new ≡ true) }
    ensures cause { OnErr result (Rose (D.faults disk.old) (D.faults disk.new)) }
    ensures later { D.time disk.old ≤ D.time disk.new }
    ensures count { D.faults disk.old ≤ D.faults disk.new }
{
    disk.sync()?;
    disk.size()
}

/// Whether a file of so many bytes is never made anew.
fn is_long(size: u64) -> bool
    ensures { MatchBool result (17 < size) (size ≤ 17) }
{
    size > SHORT
}

fn open_long<D: Disk>(disk: &mut D, size: u64) -> Result<Opening, OpenFault>
    requires long { 17 < size }
    requires small { size < 2 ^ 62 }
    requires size { Now (D.told disk.old) (λ held. size ≡ length held.octets) }
    ensures header { IfOk result (λ opening. (opening.size ≡ size) × Now (D.told disk.old) (λ held. IsHeader opening.base (take 16 held.octets))) }
    ensures based { IfOk result (λ opening. (1 ≤ opening.base) × (opening.base ≤ 2 ^ 61)) }
    ensures first { IfOk result (λ opening. (opening.next ≡ 16) × (opening.done ≡ false)) }
    ensures refused { IfErr result (λ fault. Now (D.told disk.old) (IsNotBegun fault)) }
    ensures kind { IfErr result IsBeginFault }
    ensures cause { IsErrOf result OpenFault.DiskFault → Rose (D.faults disk.old) (D.faults disk.new) }
    ensures failed { IsErrOf result OpenFault.DiskFault → D.failed disk.new ≡ true }
    ensures same { D.told disk.new ≡ D.told disk.old }
    ensures settled { OnOk result (D.settled_now disk.old → D.settled_now disk.new) }
    ensures unfailed { OnOk result (D.failed disk.new ≡ D.failed disk.old) }
    ensures still { IfErr result (SaveAtDiskFault ((D.settled_now disk.old → D.settled_now disk.new) × (D.failed disk.new ≡ D.failed disk.old))) }
    ensures later { D.time disk.old ≤ D.time disk.new }
    ensures count { D.faults disk.old ≤ D.faults disk.new }
{
    let mut front = [0; 16];
    let Ok(()) = disk.read(0, &mut front) else {
        return Err(OpenFault::DiskFault);
    };
    match read_header(&front) {
        Ok(base) => Ok(Opening {
            base,
            next: 16,
            last: 16,
            size,
            done: false,
        }),
        Err(fault) => Err(fault),
    }
}

/// Reads a file of at most 17 bytes, and gives its base where it is exactly a header and a closed gate.
fn find_short<D: Disk>(disk: &mut D, size: u64) -> Result<Option<u64>, DiskFailed>
    requires short { size ≤ 17 }
    requires size { Now (D.told disk.old) (λ held. size ≡ length held.octets) }
    ensures based { IfOk result (λ found. IfSome found (λ base. (1 ≤ base) × (base ≤ 2 ^ 61))) }
    ensures found { IfOk result (λ found. Now (D.told disk.old) (λ held. IsEmptyWith found held.octets)) }
    ensures same { D.told disk.new ≡ D.told disk.old }
    ensures settled { OnOk result (D.settled_now disk.old → D.settled_now disk.new) }
    ensures failed { OnErr result (D.failed disk.new ≡ true) }
    ensures unfailed { OnOk result (D.failed disk.new ≡ D.failed disk.old) }
    ensures cause { OnErr result (Rose (D.faults disk.old) (D.faults disk.new)) }
    ensures later { D.time disk.old ≤ D.time disk.new }
    ensures count { D.faults disk.old ≤ D.faults disk.new }
{
    let mut front = [0; 17];
    find_in(disk, &mut front[..size as usize])
}

fn find_in<D: Disk>(disk: &mut D, front: &mut [u8]) -> Result<Option<u64>, DiskFailed>
    requires { Now (D.told disk.old) (λ held. length front.old ≡ length held.octets) }
    ensures based { IfOk result (λ found. IfSome found (λ base. (1 ≤ base) × (base ≤ 2 ^ 61))) }
    ensures found { IfOk result (λ found. Now (D.told disk.old) (λ held. IsEmptyWith found held.octets)) }
    ensures same { D.told disk.new ≡ D.told disk.old }
    ensures settled { OnOk result (D.settled_now disk.old → D.settled_now disk.new) }
    ensures failed { OnErr result (D.failed disk.new ≡ true) }
    ensures unfailed { OnOk result (D.failed disk.new ≡ D.failed disk.old) }
    ensures cause { OnErr result (Rose (D.faults disk.old) (D.faults disk.new)) }
    ensures later { D.time disk.old ≤ D.time disk.new }
    ensures count { D.faults disk.old ≤ D.faults disk.new }
{
    disk.read(0, front)?;
    Ok(read_empty(front))
}

/// Makes the file anew.
fn make<D: Disk>(disk: &mut D, base: u64) -> Result<Opening, OpenFault>
    ensures made { IfOk result (λ opening. (opening.base ≡ base) × (opening.size ≡ 17) × Becomes (λ held. settled (header_2 base ++ 0 ∷ drop 17 held.octets)) (D.told disk.old) (D.told disk.new)) }
    ensures first { IfOk result (λ opening. (opening.next ≡ 16) × (opening.done ≡ false)) }
    ensures spoiled { OnErr result (Turns (SpoilsAt 0 17) (D.told disk.old) (D.told disk.new)) }
    ensures crash { CrashesAs (λ held. IsImage (touched 0 17 held)) (D.time disk.old, D.time disk.new) (D.told disk.old) (D.told disk.new) }
    ensures settled { OnOk result (D.settled_now disk.new) }
    ensures unfailed { OnOk result (D.failed disk.new ≡ false) }
    ensures kind { IfErr result (λ fault. fault ≡ OpenFault.DiskFault) }
    ensures failed { OnErr result (D.failed disk.new ≡ true) }
    ensures cause { OnErr result (Rose (D.faults disk.old) (D.faults disk.new)) }
    ensures telling { is_some (D.told disk.new) ≡ is_some (D.told disk.old) }
    ensures later { D.time disk.old ≤ D.time disk.new }
    ensures count { D.faults disk.old ≤ D.faults disk.new }
{
    let Ok(()) = write_synced(disk, 0, &new_file(base)) else {
        return Err(OpenFault::DiskFault);
    };
    Ok(Opening {
        base,
        next: 16,
        last: 16,
        size: 17,
        done: false,
    })
}

fn read_gate<D: Disk>(disk: &mut D, at: u64) -> Result<u8, DiskFailed>
    requires { Now (D.told disk.old) (λ held. at < length held.octets) }
    ensures gate { IfOk result (λ gate. Now (D.told disk.old) (λ held. gate ≡ get_or held.octets at 0)) }
    ensures same { D.told disk.new ≡ D.told disk.old }
    ensures settled { OnOk result (D.settled_now disk.old → D.settled_now disk.new) }
    ensures failed { OnErr result (D.failed disk.new ≡ true) }
    ensures unfailed { OnOk result (D.failed disk.new ≡ D.failed disk.old) }
    ensures cause { OnErr result (Rose (D.faults disk.old) (D.faults disk.new)) }
    ensures later { D.time disk.old ≤ D.time disk.new }
    ensures count { D.faults disk.old ≤ D.faults disk.new }
{
    let mut gate = [0; 1];
    disk.read(at, &mut gate)?;
    Ok(gate[0])
}

/// The length of the record behind a gate, where the record is whole.
fn find_record<D: Disk>(disk: &mut D, gate: u64, size: u64) -> Result<Option<u32>, DiskFailed>
    requires inside { gate < size }
    requires small { size < 2 ^ 62 }
    requires size { Now (D.told disk.old) (λ held. size ≡ length held.octets) }
    ensures found { IfOk result (λ found. Now (D.told disk.old) (λ held. MayBeWhole found gate held.octets)) }
    ensures fits { IfOk result (λ found. IfSome found (λ len. (1 ≤ len) × (len ≤ 2097152) × (gate + 5 + len < size))) }
    ensures same { D.told disk.new ≡ D.told disk.old }
    ensures settled { OnOk result (D.settled_now disk.old → D.settled_now disk.new) }
    ensures failed { OnErr result (D.failed disk.new ≡ true) }
    ensures unfailed { OnOk result (D.failed disk.new ≡ D.failed disk.old) }
    ensures cause { OnErr result (Rose (D.faults disk.old) (D.faults disk.new)) }
    ensures later { D.time disk.old ≤ D.time disk.new }
    ensures count { D.faults disk.old ≤ D.faults disk.new }
{
    if size - gate < 7 {
        return Ok(None);
    }
    let mut octets = [0; 4];
    disk.read(gate + 1, &mut octets)?;
    let len = length_of(&octets);
    if !fits(len, size - gate) {
        return Ok(None);
    }
    Ok(Some(len))
}

fn length_of(octets: &[u8; 4]) -> u32
    ensures { length_octets result ≡ octets.now }
{
    u32::from_be_bytes(*octets)
}

/// Whether so many bytes from a gate on can hold a record of this length and a gate.
fn fits(len: u32, room: u64) -> bool
    ensures { MatchBool result ((1 ≤ len) × (len ≤ 2097152) × (5 + len < room)) (¬ ((1 ≤ len) × (len ≤ 2097152) × (5 + len < room))) }
{
    let behind = 5 + u64::from(len);
    len >= 1 && len <= MAX_PAYLOAD && behind < room
}

fn zeros(alloc: Global, len: usize) -> Result<Vec<u8>, NoMemory>
    ensures { IfOk result (λ list. (length list.items ≡ len) × (vec_len list ≡ len)) }
{
    let mut list = Vec::new(alloc);
    list.resize(len, 0)?;
    Ok(list)
}
