ghost use Rattle.std.specs.Prelude.{◌≡◌, map, string_bytes};
ghost use Rattle.mj_compact_prog.specs.CompactWords;

/// Whether the words, which are those behind the program's name, are `FILE compact FILE2`.
pub(crate) fn asks_to_compact(words: &[String]) -> bool
    ensures { result ≡ CompactWords.asks_to_compact (map string_bytes words.now) }
{
    match words {
        [old, command, new] => {
            command.as_str() == "compact" && are_two_files(old.as_str(), new.as_str())
        }
        _ => false,
    }
}

fn are_two_files(old: &str, new: &str) -> bool
    ensures { result ≡ CompactWords.are_two_files old.now new.now }
{
    is_file(old) && is_file(new) && old != new
}

/// Whether it may name a file. `-` names none, and what begins with `--` is an option.
fn is_file(name: &str) -> bool
    ensures { result ≡ CompactWords.is_file name.now }
{
    !name.is_empty() && name != "-" && !name.starts_with("--")
}
