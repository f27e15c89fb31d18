ghost use Rattle.std.specs.Prelude.{◌≡◌, ◌≤◌, [], IfSome, map, max, min, string_bytes};
ghost use Rattle.mj_words.specs.Options;
ghost use Rattle.mj_words.specs.Options.{IsFound, found_after, is_among, number_between, once_or, values_of};

use super::number::read_number;

/// What the search for the value of an option gives.
#[derive(Clone, Copy)]
enum Found {
    /// The option isn't given.
    Nowhere,
    /// It stands at this place among the words, from 0.
    At(usize),
    /// The option is given more than once.
    Twice,
}

/// Whether the words are options, each a name and a value, with these names alone.
pub fn are_options(words: &[String], one: &str, two: &str, three: &str) -> bool
    ensures { result ≡ Options.are_options (is_among one.now two.now three.now) (map string_bytes words.now) }
{
    for option in 0..words.len() / 2 {
        if !is_option(words[2 * option].as_str(), one, two, three) {
            return false;
        }
    }
    words.len() % 2 == 0
}

fn is_option(name: &str, one: &str, two: &str, three: &str) -> bool
    ensures { result ≡ is_among one.now two.now three.now name.now }
{
    name == one || name == two || name == three
}

/// The number that the option with this name has among the words, of which each two are an option; the default where it
/// isn't given. None where it is given twice, or its value is no number from `least` to `most`.
pub fn read_option(words: &[String], name: &str, default: u64, least: u64, most: u64) -> Option<u64>
    ensures exact { result ≡ once_or default (number_between least most) (values_of name.now (map string_bytes words.now)) }
    ensures least { IfSome result (λ n. min default least ≤ n) }
    ensures most { IfSome result (λ n. n ≤ max default most) }
{
    match find_value(words, name) {
        Found::Nowhere => Some(default),
        Found::At(place) => read_between(words[place].as_bytes(), least, most),
        Found::Twice => None,
    }
}

fn read_between(text: &[u8], least: u64, most: u64) -> Option<u64>
    ensures exact { result ≡ number_between least most text.now }
    ensures least { IfSome result (λ n. least ≤ n) }
    ensures most { IfSome result (λ n. n ≤ most) }
{
    match read_number(text) {
        Some(number) if least <= number && number <= most => Some(number),
        _ => None,
    }
}

/// Looks for the value of the option with this name. Options are two words each.
fn find_value(words: &[String], name: &str) -> Found
    ensures { IsFound (map string_bytes words.now) result [] (values_of name.now (map string_bytes words.now)) }
{
    let mut found = Found::Nowhere;
    for option in 0..words.len() / 2 {
        if words[2 * option].as_str() == name {
            found = one_more(found, 2 * option + 1);
        }
    }
    found
}

/// One more value, at this place.
fn one_more(found: Found, place: usize) -> Found
    ensures { result ≡ found_after found place }
{
    match found {
        Found::Nowhere => Found::At(place),
        Found::At(_) | Found::Twice => Found::Twice,
    }
}
