ghost use Rattle.std.specs.Prelude.{◌≡◌, ◌++◌, ◌∷◌, [], OnOk, OnErr};

use mj_base::{Frames, NoMemory, Octets};
use mj_submit::Note;
use std::alloc::Global;
use std::marker::Model;

/// How a submitter ends.
#[derive(Clone, Copy, Debug, PartialEq, Eq)]
pub enum Ending {
    /// The broker's answer for this line is another than it may be. The code is the answer's first frame where that is
    /// three digits, else `000`.
    Refused { line: u64, code: [u8; 3] },
    /// The reply for this line wasn't there at the last poll.
    NoReply { line: u64 },
    /// A call for this line was given up.
    NoAnswer { line: u64 },
    /// The input is at its end; so many lines were closed.
    Finished { closed: u64 },
}

/// What a submitter wants done.
#[derive(Drop)]
pub enum Effect {
    /// These bytes are to be written to the link.
    Write(Octets),
    /// The link is to be opened anew. What is written next goes to the new one.
    Reopen,
    /// The reply for this line is to be printed.
    Print { line: u64, body: Frames },
    /// This note is to be appended to the file.
    Note(Note),
    /// Nothing is to be done any more.
    End(Ending),
}

/// A list of these, in the order in which they are to be done.
#[derive(Drop)]
pub struct Effects {
    effects: Vec<Effect>,
}

impl Model for Effects {
    ghost use Rattle.std.specs.Prelude.{List};
    ghost use Rattle.mj_submitter.specs.declared.effect.Effect.{Effect};

    ghost Value = { List Effect };

    ghost view = { λ e. e.effects.items };
}

impl Effects {
    pub fn new(alloc: Global) -> Effects
        ensures { result ≡ [] }
    {
        Effects {
            effects: Vec::new(alloc),
        }
    }

    /// All of them.
    pub fn as_slice(&self) -> &[Effect]
        ensures { result.now ≡ self.now }
    {
        self.effects.as_slice()
    }

    /// Appends one. Without memory nothing is appended.
    pub fn push(&mut self, effect: Effect) -> Result<(), NoMemory>
        ensures ok { OnOk result (self.new ≡ self.old ++ effect ∷ []) }
        ensures err { OnErr result (self.new ≡ self.old) }
    {
        self.effects.push(effect)?;
        Ok(())
    }
}
