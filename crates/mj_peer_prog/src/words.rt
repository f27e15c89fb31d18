ghost use Rattle.std.specs.Prelude.{◌≡◌, ◌≤◌, IfSome, map, string_bytes};
ghost use Rattle.mj_peer_prog.specs.PeerWords;
ghost use Rattle.mj_peer_prog.specs.PeerWords.{IsLawful, addressed_in, asking_in, command_in, serving_in, task_in, version_of};

use super::task::{Asking, Serving, Task};
use mj_base::{Name, Version};
use mj_words::{are_options, read_option};

/// What the words ask for, which are those behind the program's name; None where they aren't of these commands.
pub(crate) fn read_task(words: &[String]) -> Option<Task>
    ensures exact { result ≡ task_in (map string_bytes words.now) }
    ensures lawful { IfSome result IsLawful }
{
    match words {
        [address, command, version, name, options @ ..] => read_addressed(
            address.as_str(),
            command.as_str(),
            version.as_str(),
            name.as_bytes(),
            options,
        ),
        _ => None,
    }
}

fn read_addressed(
    address: &str,
    command: &str,
    version: &str,
    name: &[u8],
    options: &[String],
) -> Option<Task>
    ensures exact { result ≡ addressed_in address.now command.now version.now name.now (map string_bytes options.now) }
    ensures lawful { IfSome result IsLawful }
{
    if !is_address(address) {
        return None;
    }
    read_command(command, version, name, options)
}

/// An address isn't looked at but for its beginning, which tells it from an option.
fn is_address(address: &str) -> bool
    ensures { result ≡ PeerWords.is_address address.now }
{
    !address.is_empty() && !address.starts_with("--")
}

fn read_command(command: &str, version: &str, name: &[u8], options: &[String]) -> Option<Task>
    ensures exact { result ≡ command_in command.now version.now name.now (map string_bytes options.now) }
    ensures lawful { IfSome result IsLawful }
{
    if command == "client" {
        return match read_asking(version, name, options) {
            Some(asking) => Some(Task::Client(asking)),
            None => None,
        };
    }
    if command == "worker" {
        return match read_serving(version, name, options) {
            Some(serving) => Some(Task::Worker(serving)),
            None => None,
        };
    }
    None
}

fn read_asking(version: &str, name: &[u8], options: &[String]) -> Option<Asking>
    ensures exact { result ≡ asking_in version.now name.now (map string_bytes options.now) }
    ensures tries { IfSome result (λ asking. 1 ≤ asking.tries) }
    ensures wait { IfSome result (λ asking. 1 ≤ asking.wait) }
{
    if !are_options(options, "--tries", "--wait", "--wait") {
        return None;
    }
    let Some(version) = read_version(version) else {
        return None;
    };
    let Some(tries) = read_option(options, "--tries", 3, 1, 100) else {
        return None;
    };
    let Some(wait) = read_option(options, "--wait", 25, 1, 36_000) else {
        return None;
    };
    match Name::of(name) {
        Some(service) => Some(Asking {
            version,
            service,
            tries: tries as u32,
            wait: wait as u32,
        }),
        None => None,
    }
}

fn read_serving(version: &str, name: &[u8], options: &[String]) -> Option<Serving>
    ensures exact { result ≡ serving_in version.now name.now (map string_bytes options.now) }
    ensures tries { IfSome result (λ serving. 1 ≤ serving.tries) }
{
    if !are_options(options, "--tries", "--count", "--parts") {
        return None;
    }
    let Some(version) = read_version(version) else {
        return None;
    };
    let Some(tries) = read_option(options, "--tries", 3, 1, 100) else {
        return None;
    };
    let Some(parts) = read_parts(version, options) else {
        return None;
    };
    let Some(count) = read_option(options, "--count", 0, 1, 1_000_000_000) else {
        return None;
    };
    match Name::of(name) {
        Some(service) => Some(Serving {
            version,
            service,
            tries: tries as u32,
            parts,
            count,
        }),
        None => None,
    }
}

/// `1` or `2`.
fn read_version(version: &str) -> Option<Version>
    ensures { result ≡ version_of version.now }
{
    if version == "1" {
        return Some(Version::One);
    }
    if version == "2" {
        return Some(Version::Two);
    }
    None
}

/// How many partial replies there are; in 0.1 there are none.
fn read_parts(version: Version, options: &[String]) -> Option<u32>
    ensures { result ≡ PeerWords.parts_in version (map string_bytes options.now) }
{
    match read_option(options, "--parts", 0, 0, 100) {
        Some(parts) if parts == 0 || version == Version::Two => Some(parts as u32),
        _ => None,
    }
}
