ghost use Rattle.std.specs.Prelude.{◌≤◌, length, None, IfOk};

use super::{ReadAnswer, Source};
use std::io;
use std::io::{ErrorKind, Read};

/// A source over any reader, as standard input. It tells nothing of what is left.
#[derive(Drop)]
pub struct StdSource<R> {
    reader: R,
    faults: u64,
    misses: u64,
}

impl<R: Read> StdSource<R> {
    pub fn new(reader: R) -> StdSource<R> {
        StdSource {
            reader,
            faults: 0,
            misses: 0,
        }
    }
}

impl<R: Read> Source for StdSource<R> {
    ghost left = { λ _. None };

    ghost faults = { λ s. s.faults };

    ghost last = { λ _. None };

    ghost misses = { λ s. s.misses };

    fn read(&mut self, into: &mut [u8]) -> ReadAnswer {
        match read_through_signals(&mut self.reader, into) {
            Ok(0) => {
                self.misses = self.misses.saturating_add(1);
                ReadAnswer::End
            }
            Ok(count) => ReadAnswer::Got(count),
            Err(_) => {
                self.faults = self.faults.saturating_add(1);
                self.misses = self.misses.saturating_add(1);
                ReadAnswer::Failed
            }
        }
    }
}

/// A read that is made again where a signal interrupted it.
fn read_through_signals<R: Read>(reader: &mut R, into: &mut [u8]) -> io::Result<usize>
    ensures { IfOk result (λ count. count ≤ length into.new) }
{
    for _ in 0..u64::MAX {
        match reader.read(into) {
            Ok(count) => return Ok(count),
            Err(error) => {
                if error.kind() != ErrorKind::Interrupted {
                    return Err(error);
                }
            }
        }
    }
    reader.read(into)
}
