//! A transcript, piece by piece.
ghost use Rattle.std.specs.Prelude.{◌≡◌, ◌<◌, ◌≤◌, ◌+◌, ◌-◌, ◌^◌, ℕ, List, [], Option, false, true, length, min, take, IfOk, IfErr};
ghost use Rattle.std.specs.Io.KnownBytes.{Consumes};
ghost use Rattle.mj_base.specs.Reading.{ReadTakes, ReadCause, ReadMisses};
ghost use Rattle.mj_audit_prog.specs.Auditing.{IsAudited};
ghost use Rattle.mj_audit_prog.specs.AuditingSoFar.{HaltCause, IsHalted, SoFar, Turned, is_more, is_over};
ghost use Rattle.mj_audit_prog.specs.Reading.{IsRead, IsReady};
ghost use Rattle.mj_audit_prog.specs.declared.pieces.Halt.TheVariants as halts;
ghost use Rattle.mj_audit_prog.specs.declared.pieces.Turn.TheVariants as turns;

use super::reader::Reader;
use mj_base::{NoMemory, ReadAnswer, Source};
use mj_transcript::Verdict;

/// Bytes of a text that are read at most.
const TEXT_BYTES: u64 = 1 << 40;

/// Why an audit broke off.
#[derive(Clone, Copy, Debug, PartialEq, Eq)]
pub(crate) enum Halt {
    /// There was no memory.
    NoMemory,
    /// A read failed.
    Read,
}

impl From<NoMemory> for Halt {
    ghost use Rattle.std.specs.Prelude.{◌≡◌};
    ghost use Rattle.mj_audit_prog.specs.declared.pieces.Halt.TheVariants.{NoMemory};

    ghost from_gives = { λ _ halt. halt ≡ NoMemory };

    fn from(_error: NoMemory) -> Halt {
        Halt::NoMemory
    }
}

/// What a turn of the reading gave.
#[derive(Clone, Copy, Debug, PartialEq, Eq)]
pub(crate) enum Turn {
    /// A piece; so many bytes are read now.
    More(u64),
    /// Nothing is left that may be read.
    End,
    /// The audit is over.
    Over(Verdict),
}

/// Reads the text until the audit is over; answers its verdict.
pub(crate) fn read_all<S: Source>(
    reader: &mut Reader,
    buffer: &mut [u8],
    src: &mut S,
) -> Result<Verdict, Halt>
    requires fresh { IsRead reader.old [] }
    requires ready { IsReady reader.old }
    requires room { 0 < length buffer.old }
    requires small { length buffer.old ≤ 4096 }
    ensures whole { IfOk result (λ verdict. IsAudited (S.left src.old) (S.left src.new) reader.new.lines verdict) }
    ensures halted { IfErr result (λ halt. IsHalted halt (S.left src.old) (S.left src.new)) }
    ensures cause { IfErr result (λ halt. HaltCause halt (S.faults src.old) (S.faults src.new)) }
    ensures misses { S.misses src.new ≤ S.misses src.old + 1 }
{
    let mut taken: u64 = 0;
    for _ in 0..TEXT_BYTES {
        match step(reader, buffer, taken, src)? {
            Turn::More(count) => taken = count,
            Turn::Over(verdict) => return Ok(verdict),
            Turn::End => return read_end(reader),
        }
    }
    read_end(reader)
}

/// Reads the next piece.
fn step<S: Source>(
    reader: &mut Reader,
    buffer: &mut [u8],
    taken: u64,
    src: &mut S,
) -> Result<Turn, Halt>
    requires ready { IsReady reader.old }
    requires room { 0 < length buffer.old }
    requires small { length buffer.old ≤ 4096 }
    requires few { taken ≤ 2 ^ 40 }
    ensures goes { IfOk result (λ turn. (from : Option (List ℕ)) (read : List ℕ) → SoFar from (S.left src.old) reader.old taken read → Turned turn from (S.left src.new) reader.new read) }
    ensures halted { IfErr result (λ halt. (from : Option (List ℕ)) (read : List ℕ) → SoFar from (S.left src.old) reader.old taken read → IsHalted halt from (S.left src.new)) }
    ensures cause { IfErr result (λ halt. HaltCause halt (S.faults src.old) (S.faults src.new)) }
    ensures later { S.faults src.old ≤ S.faults src.new }
    ensures misses { S.misses src.new ≤ S.misses src.old + 1 }
    ensures got { IfOk result (λ turn. is_more turn ≡ true → S.misses src.new ≡ S.misses src.old) }
    ensures ready { IfOk result (λ turn. is_over turn ≡ false → IsReady reader.new) }
    ensures same { length buffer.new ≡ length buffer.old }
{
    let most = room(taken, buffer.len());
    if most == 0 {
        return Ok(Turn::End);
    }
    match read_front(buffer, most, src) {
        ReadAnswer::Got(count) => take_bytes(reader, &buffer[..count], taken),
        ReadAnswer::End => Ok(Turn::End),
        ReadAnswer::Failed => Err(Halt::Read),
    }
}

/// Takes a piece behind so many bytes.
fn take_bytes(reader: &mut Reader, piece: &[u8], taken: u64) -> Result<Turn, Halt>
    requires ready { IsReady reader.old }
    requires few { taken + length piece.now ≤ 2 ^ 40 }
    ensures goes { IfOk result (λ turn. (from before left : Option (List ℕ)) (read : List ℕ) → SoFar from before reader.old taken read → Consumes before left piece.now → 0 < length piece.now → length piece.now ≤ 4096 → Turned turn from left reader.new read) }
    ensures wants { IfErr result (λ halt. halt ≡ halts.NoMemory) }
    ensures ready { IfOk result (λ turn. is_over turn ≡ false → IsReady reader.new) }
{
    match reader.take_piece(piece)? {
        Some(verdict) => Ok(Turn::Over(verdict)),
        None => Ok(Turn::More(taken + piece.len() as u64)),
    }
}

/// Reads at most so many bytes into the front of the buffer.
fn read_front<S: Source>(buffer: &mut [u8], most: usize, src: &mut S) -> ReadAnswer
    requires some { 0 < most }
    requires inside { most ≤ length buffer.old }
    ensures octets { ReadTakes (S.left src.old) (S.left src.new) result (take most buffer.new) }
    ensures later { S.faults src.old ≤ S.faults src.new }
    ensures cause { ReadCause (S.faults src.old) (S.faults src.new) result }
    ensures misses { ReadMisses (S.misses src.old) (S.misses src.new) result }
    ensures same { length buffer.new ≡ length buffer.old }
{
    src.read(buffer.split_at_mut(most).0)
}

/// How many bytes may be read at once, behind so many.
fn room(taken: u64, len: usize) -> usize
    requires { taken ≤ 2 ^ 40 }
    ensures { result ≡ min (2 ^ 40 - taken) len }
{
    (TEXT_BYTES - taken).min(len as u64) as usize
}

/// The verdict at the end of the text.
fn read_end(reader: &mut Reader) -> Result<Verdict, Halt>
    requires ready { IsReady reader.old }
    ensures whole { IfOk result (λ verdict. (from left : Option (List ℕ)) (read : List ℕ) → Turned turns.End from left reader.old read → IsAudited from left reader.new.lines verdict) }
    ensures wants { IfErr result (λ halt. halt ≡ halts.NoMemory) }
{
    Ok(reader.take_end()?)
}
