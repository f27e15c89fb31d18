//! A client's input, request by request.
ghost use Rattle.std.specs.Prelude.{◌≡◌, ◌<◌, ◌≤◌, ◌∷◌, [], false, length, IfOk, IfErr, OnErr, MatchOption};
ghost use Rattle.std.specs.Io.KnownBytes.{Consumes, IsAtEnd, Keeps};
ghost use Rattle.mj_base.specs.Rising.{Rose};
ghost use Rattle.mj_peering.specs.Requests.{IsOver, Takes, Uses, unread};

use super::stop::Stop;
use mj_base::{NoMemory, Octets, ReadAnswer, Source};
use std::alloc::Global;

/// Bytes of a line that are one request at most.
const REQUEST_BYTES: usize = 65_536;

/// Bytes that are read at once at most.
const BUFFER_BYTES: usize = 4_096;

/// What was read of the input, and where its next request begins.
#[derive(Drop)]
pub struct Feed {
    buffer: Vec<u8>,
    /// The bytes of the last read that were given, and all of them.
    at: usize,
    len: usize,
    /// Whether the line that is read was cut.
    cut: bool,
    ghost some: { 0 < length buffer.items },
    ghost given: { at ≤ len },
    ghost inside: { len ≤ length buffer.items },
}

impl Feed {
    pub fn new(alloc: Global) -> Result<Feed, NoMemory>
        ensures { IfOk result (λ feed. (feed.at ≡ 0) × (feed.len ≡ 0) × (feed.cut ≡ false)) }
    {
        Ok(Feed {
            buffer: vec![in alloc; 0; BUFFER_BYTES]?,
            at: 0,
            len: 0,
            cut: false,
        })
    }

    /// The next byte, or None behind the last one.
    pub(crate) fn next_byte<S: Source>(&mut self, src: &mut S) -> Result<Option<u8>, Stop>
        ensures octets { IfOk result (λ found. MatchOption found (IsOver (unread self.new.buffer.items self.new.at self.new.len (S.left src.new)) × Uses (unread self.old.buffer.items self.old.at self.old.len (S.left src.old)) (unread self.new.buffer.items self.new.at self.new.len (S.left src.new)) []) (λ c. Uses (unread self.old.buffer.items self.old.at self.old.len (S.left src.old)) (unread self.new.buffer.items self.new.at self.new.len (S.left src.new)) (c ∷ []))) }
        ensures failed { OnErr result (Uses (unread self.old.buffer.items self.old.at self.old.len (S.left src.old)) (unread self.new.buffer.items self.new.at self.new.len (S.left src.new)) []) }
        ensures cause { IfErr result (λ stop. (stop ≡ Stop.Read) × Rose (S.faults src.old) (S.faults src.new)) }
        ensures later { S.faults src.old ≤ S.faults src.new }
        ensures cut { self.new.cut ≡ self.old.cut }
    {
        if self.at == self.len {
            match src.read(self.buffer.as_mut_slice()) {
                ReadAnswer::Got(count) => {
                    self.at = 0;
                    self.len = count;
                }
                ReadAnswer::End => return Ok(None),
                ReadAnswer::Failed => return Err(Stop::Read),
            }
        }
        let c = self.buffer[self.at];
        self.at += 1;
        Ok(Some(c))
    }

    /// Takes a byte of the input; answers whether the piece is a whole request.
    pub(crate) fn take(&mut self, c: u8, piece: &mut Octets) -> Result<bool, NoMemory>
        ensures takes { IfOk result (λ whole. Takes c (record { cut = self.old.cut; piece = piece.old }) self.new.cut whole piece.new) }
        ensures place { (self.new.buffer ≡ self.old.buffer) × (self.new.at ≡ self.old.at) × (self.new.len ≡ self.old.len) }
    {
        if c == b'\n' {
            let skipped = self.cut && piece.is_empty();
            self.cut = false;
            return Ok(!skipped);
        }
        piece.push_all(&[c])?;
        if piece.len() < REQUEST_BYTES {
            return Ok(false);
        }
        self.cut = true;
        Ok(true)
    }
}
