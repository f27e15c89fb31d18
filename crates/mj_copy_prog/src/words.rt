ghost use Rattle.std.specs.Prelude.{◌≡◌, ◌≤◌, IfSome, map, string_bytes};
ghost use Rattle.mj_copy_prog.specs.CopyWords;
ghost use Rattle.mj_copy_prog.specs.CopyWords.{tries_among, tries_behind};

use mj_words::{are_options, read_option};

/// How many tries the words, which are those behind the program's name, ask for: `FILE command ADDRESS`, and then
/// `--tries N`, or nothing. None where they aren't these.
pub(crate) fn read_tries(command: &str, words: &[String]) -> Option<u32>
    ensures exact { result ≡ tries_among command.now (map string_bytes words.now) }
{
    match words {
        [file, word, address, options @ ..] => {
            if word.as_str() != command
                || !is_file(file.as_str())
                || !is_address(address.as_str())
            {
                return None;
            }
            read_options(options)
        }
        _ => None,
    }
}

fn read_options(options: &[String]) -> Option<u32>
    ensures { result ≡ tries_behind (map string_bytes options.now) }
{
    if !are_options(options, "--tries", "--tries", "--tries") {
        return None;
    }
    match read_option(options, "--tries", 3, 1, 100) {
        Some(tries) => Some(tries as u32),
        None => None,
    }
}

/// Whether it may name a file. `-` names none, and what begins with `--` is an option.
fn is_file(name: &str) -> bool
    ensures { result ≡ CopyWords.is_file name.now }
{
    is_address(name) && name != "-"
}

/// An address isn't looked at but for its beginning, which tells it from an option.
fn is_address(address: &str) -> bool
    ensures { result ≡ CopyWords.is_address address.now }
{
    !address.is_empty() && !address.starts_with("--")
}
