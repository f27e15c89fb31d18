ghost use Rattle.std.specs.Prelude.{◌≡◌, ◌≤◌, IsTrue, length};
ghost use Rattle.mj_words.specs.Numbers;
ghost use Rattle.mj_words.specs.Numbers.{number_of, digits_onto, NumbersAreDecimal};

/// Reads a number: 1 to 19 decimal digits without a leading zero, save `0` itself.
pub fn read_number(text: &[u8]) -> Option<u64>
    ensures exact { result ≡ number_of text.now }
    ensures decimal { NumbersAreDecimal text.now }
{
    if is_number(text) {
        Some(value(text))
    } else {
        None
    }
}

fn is_number(text: &[u8]) -> bool
    ensures { result ≡ Numbers.is_number text.now }
{
    !text.is_empty() && text.len() <= 19 && are_digits(text) && !has_leading_zero(text)
}

fn has_leading_zero(text: &[u8]) -> bool
    ensures { result ≡ Numbers.has_leading_zero text.now }
{
    text.len() > 1 && text[0] == b'0'
}

fn are_digits(text: &[u8]) -> bool
    ensures { result ≡ Numbers.are_digits text.now }
{
    text.iter().all(|c| is_digit(*c))
}

fn is_digit(c: u8) -> bool
    ensures { result ≡ Numbers.is_digit c }
{
    b'0' <= c && c <= b'9'
}

fn value(digits: &[u8]) -> u64
    requires few { length digits.now ≤ 19 }
    requires digits { IsTrue (Numbers.are_digits digits.now) }
    ensures { result ≡ digits_onto 0 digits.now }
{
    let mut value: u64 = 0;
    for c in digits {
        value = 10 * value + u64::from(*c - b'0');
    }
    value
}
