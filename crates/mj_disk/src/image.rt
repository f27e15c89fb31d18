ghost use Rattle.std.specs.Prelude.{◌≡◌, IfOk};
ghost use Rattle.mj_disk.specs.Images.{marked_at, marked};

use mj_base::NoMemory;
use std::alloc::Global;

/// The bytes, with those in the ranges (offset and length) as `FF`.
pub(crate) fn marked(
    alloc: Global,
    octets: &[u8],
    ranges: &[(u64, u64)],
) -> Result<Vec<u8>, NoMemory>
    ensures { IfOk result (λ copy. copy.items ≡ marked ranges.now octets.now) }
{
    let mut copy = Vec::from_slice(alloc, octets)?;
    for range in ranges {
        mark(copy.as_mut_slice(), range.0 as usize, range.1 as usize);
    }
    Ok(copy)
}

fn mark(octets: &mut [u8], at: usize, len: usize)
    ensures { octets.new ≡ marked_at octets.old (at, len) }
{
    let from = at.min(octets.len());
    let count = len.min(octets.len() - from);
    octets[from..from + count].fill(0xff);
}
