ghost use Rattle.std.specs.Prelude.{◌≡◌, ◌+◌, ◌-◌, ◌^◌, ◌<◌, ◌==◌, if◌then◌else◌};
ghost use Rattle.std.specs.Option.{unwrap_or};
ghost use Rattle.mj_chain.specs.Seats.{is_no_key};
ghost use Rattle.mj_hall.specs.Ends.{ends_from};

use mj_chain::{Ends, Link};

/// The ends, none where the count is 0.
pub fn ends(first: usize, last: usize, count: usize) -> Ends
    ensures { result ≡ ends_from first last count }
{
    if count == 0 {
        return Ends {
            first: None,
            last: None,
        };
    }
    Ends {
        first: Some(first),
        last: Some(last),
    }
}

/// A row with this link leaves the chain.
pub fn ends_without(first: &mut usize, last: &mut usize, count: &mut usize, gone: Link)
    requires { 0 < count.old }
    ensures first { first.new ≡ (if is_no_key gone.prev then unwrap_or gone.next 0 else first.old) }
    ensures last { last.new ≡ (if is_no_key gone.next then unwrap_or gone.prev 0 else last.old) }
    ensures count { count.new + 1 ≡ count.old }
{
    if gone.prev.is_none() {
        *first = gone.next.unwrap_or(0);
    }
    if gone.next.is_none() {
        *last = gone.prev.unwrap_or(0);
    }
    *count -= 1;
}

/// A row comes last into the chain.
pub fn ends_with(first: &mut usize, last: &mut usize, count: &mut usize, key: usize)
    requires { count.old + 1 < 2 ^ 64 }
    ensures first { first.new ≡ (if count.old == 0 then key else first.old) }
    ensures last { last.new ≡ key }
    ensures count { count.new ≡ count.old + 1 }
{
    if *count == 0 {
        *first = key;
    }
    *last = key;
    *count += 1;
}
