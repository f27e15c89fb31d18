ghost use Rattle.std.specs.Prelude.{◌≡◌, ◌≤◌, IfSome, map, string_bytes, codes};
ghost use Rattle.mj_host.specs.Words;
ghost use Rattle.mj_host.specs.Words.{numbers_in, numbers_of};
ghost use Rattle.mj_words.specs.Options.{number_between, once_or, values_of};

use mj_words::{are_options, read_option};

/// The most milliseconds after which a broker ends.
const LAST_MS: u64 = 1_000_000_000_000;

/// The number of lanes, 1 to 64, and after how many milliseconds the broker is to end, 0 for never; None where the words
/// aren't of the broker over sockets. They are `PLACE broker ADDRESS`, with `--lanes N` and `--for N` behind them.
pub fn broker_words(words: &[String]) -> Option<(u32, u64)>
    ensures exact { result ≡ numbers_in (map string_bytes words.now) }
    ensures lanes { IfSome result (λ numbers. (1 ≤ numbers.0) × (numbers.0 ≤ 64)) }
{
    match words {
        [place, command, address, options @ ..] => {
            if is_word(place.as_bytes())
                && command.as_str() == "broker"
                && is_word(address.as_bytes())
            {
                read_numbers(options)
            } else {
                None
            }
        }
        _ => None,
    }
}

/// Whether the broker has a store: the first word is a file, and not `-`.
pub fn has_store(words: &[String]) -> bool
    ensures { result ≡ Words.has_store (map string_bytes words.now) }
{
    match words {
        [place, ..] => place.as_str() != "-",
        [] => false,
    }
}

/// Whether it has a byte and doesn't begin as an option does.
fn is_word(word: &[u8]) -> bool
    ensures { result ≡ Words.is_word word.now }
{
    !word.is_empty() && !word.starts_with(b"--")
}

fn read_numbers(words: &[String]) -> Option<(u32, u64)>
    ensures exact { result ≡ numbers_of (map string_bytes words.now) }
    ensures lanes { IfSome result (λ numbers. (1 ≤ numbers.0) × (numbers.0 ≤ 64)) }
{
    if !are_options(words, "--lanes", "--for", "--for") {
        return None;
    }
    match (read_lanes(words), read_millis(words)) {
        (Some(lanes), Some(millis)) => Some((lanes, millis)),
        _ => None,
    }
}

fn read_lanes(words: &[String]) -> Option<u32>
    ensures exact { result ≡ once_or 64 (number_between 1 64) (values_of (codes "--lanes") (map string_bytes words.now)) }
    ensures few { IfSome result (λ lanes. (1 ≤ lanes) × (lanes ≤ 64)) }
{
    match read_option(words, "--lanes", 64, 1, 64) {
        Some(lanes) => Some(lanes as u32),
        None => None,
    }
}

fn read_millis(words: &[String]) -> Option<u64>
    ensures { result ≡ once_or 0 (number_between 1 1000000000000) (values_of (codes "--for") (map string_bytes words.now)) }
{
    read_option(words, "--for", 0, 1, LAST_MS)
}
