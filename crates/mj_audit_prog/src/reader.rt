//! A transcript, byte by byte.
ghost use Rattle.std.specs.Prelude.{◌≡◌, ◌+◌, ◌++◌, ◌∷◌, [], None, ℕ, List, IfOk};
ghost use Rattle.mj_audit_prog.specs.Reading.{IsEnded, IsRead, IsReady, LastStep, LineStep, OctetStep, Standing};

use mj_audit::Audit;
use mj_base::NoMemory;
use mj_transcript::{LINE_BYTES, Verdict};
use std::alloc::Global;

/// An audit, with the line that isn't whole yet, and the number of lines before it, all of which were held.
#[derive(Drop)]
pub struct Reader {
    pub audit: Audit,
    pub pending: Vec<u8>,
    pub lines: u64,
}

impl Reader {
    pub fn new(alloc: Global) -> Result<Reader, NoMemory>
        ensures fresh { IfOk result (λ reader. IsRead reader []) }
        ensures ready { IfOk result IsReady }
    {
        Ok(Reader {
            audit: Audit::new(alloc)?,
            pending: Vec::new(alloc),
            lines: 0,
        })
    }

    /// Takes these bytes, and answers the verdict with which the audit is over, if it is.
    pub fn take_piece(&mut self, piece: &[u8]) -> Result<Option<Verdict>, NoMemory>
        requires ready { IsReady self.old }
        ensures goes { IfOk result (λ over. (read : List ℕ) → IsRead self.old read → OctetStep over self.new (read ++ piece.now)) }
        ensures ready { IfOk result (λ over. over ≡ None → IsReady self.new) }
    {
        for octet in piece {
            if let Some(verdict) = self.take_octet(*octet)? {
                return Ok(Some(verdict));
            }
        }
        Ok(None)
    }

    fn take_octet(&mut self, octet: u8) -> Result<Option<Verdict>, NoMemory>
        requires ready { IsReady self.old }
        ensures goes { IfOk result (λ over. (read : List ℕ) → IsRead self.old read → OctetStep over self.new (read ++ octet ∷ [])) }
        ensures ready { IfOk result (λ over. over ≡ None → IsReady self.new) }
    {
        if octet == b'\n' {
            return self.take_line();
        }
        self.pending.push(octet)?;
        if self.pending.len() > LINE_BYTES {
            return Ok(Some(Verdict::Unlawful));
        }
        Ok(None)
    }

    /// Takes the line that is whole now.
    fn take_line(&mut self) -> Result<Option<Verdict>, NoMemory>
        requires ready { IsReady self.old }
        ensures goes { IfOk result (λ over. (done : List (List ℕ)) → Standing self.old done → LineStep over self.old self.new done) }
        ensures ready { IfOk result (λ over. over ≡ None → IsReady self.new) }
    {
        match self.audit.line(self.pending.as_slice())? {
            Verdict::Held => {
                self.lines = one_more(self.lines)?;
                self.pending.clear();
                Ok(None)
            }
            verdict => Ok(Some(verdict)),
        }
    }

    /// The verdict at the end of the text. A last line may lack its newline.
    pub fn take_end(&mut self) -> Result<Verdict, NoMemory>
        requires ready { IsReady self.old }
        ensures { IfOk result (λ verdict. (read : List ℕ) → IsRead self.old read → IsEnded read self.new.lines verdict) }
    {
        match self.take_last()? {
            Some(verdict) => Ok(verdict),
            None => Ok(self.audit.finish()),
        }
    }

    /// Takes a last line without a newline, where there is one.
    fn take_last(&mut self) -> Result<Option<Verdict>, NoMemory>
        requires ready { IsReady self.old }
        ensures goes { IfOk result (λ over. (read : List ℕ) → IsRead self.old read → LastStep over self.new read) }
        ensures ready { IfOk result (λ over. over ≡ None → IsReady self.new) }
    {
        if self.pending.is_empty() {
            return Ok(None);
        }
        self.take_line()
    }
}

pub(crate) fn one_more(count: u64) -> Result<u64, NoMemory>
    ensures { IfOk result (λ more. more ≡ count + 1) }
{
    match count.checked_add(1) {
        Some(more) => Ok(more),
        None => Err(NoMemory),
    }
}
