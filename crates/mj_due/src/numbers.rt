ghost use Rattle.std.specs.Prelude.{◌≡◌, ◌+◌, ◌≤◌, ◌<◌, ◌++◌, ℕ, List, length, slice_get, position, nat_le, vec_len, vec_capacity};
ghost use Rattle.mj_due.specs.Numbers.{is_number, place_in, put_once};

/// Puts this number in its place among those from `start` on, which rise, unless it is there.
pub fn put_number(numbers: &mut Vec<u64>, start: usize, number: u64)
    requires start { start ≤ vec_len numbers.old }
    requires room { vec_len numbers.old < vec_capacity numbers.old }
    ensures put { (front back : List ℕ) → numbers.old.items ≡ front ++ back → length front ≡ start → numbers.new.items ≡ front ++ put_once number back }
    ensures len { (vec_len numbers.old ≤ vec_len numbers.new) × (vec_len numbers.new ≤ vec_len numbers.old + 1) }
    ensures capacity { vec_capacity numbers.old ≤ vec_capacity numbers.new }
{
    let at = place_of(&numbers[start..], number);
    if !is_at(&numbers[start..], at, number) {
        numbers.insert(start + at, number).unwrap();
    }
}

/// The first place whose number isn't below this one, or the length.
fn place_of(numbers: &[u64], number: u64) -> usize
    ensures place { result ≡ place_in number numbers.now }
    ensures within { result ≤ length numbers.now }
{
    first_not_below(numbers, number).unwrap_or(numbers.len())
}

fn first_not_below(numbers: &[u64], number: u64) -> Option<usize>
    ensures { result ≡ position (λ n. nat_le number n) numbers.now }
{
    numbers.iter().position(|n| number <= *n)
}

/// Whether this number stands here.
fn is_at(numbers: &[u64], at: usize, number: u64) -> bool
    ensures { result ≡ is_number number (slice_get numbers.now at) }
{
    match numbers.get(at) {
        Some(other) => *other == number,
        None => false,
    }
}
