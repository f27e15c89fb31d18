ghost use Rattle.std.specs.Prelude.{◌≡◌, ◌≤◌, IfSome, map, string_bytes};
ghost use Rattle.mj_bridge_prog.specs.BridgeWords;
ghost use Rattle.mj_bridge_prog.specs.BridgeWords.{IsLawful, addressed_in, bridging_in, named_in, options_in};

use mj_base::Name;
use mj_words::{are_options, read_option};

/// What the words ask for: the service that is served near, and the one that is asked far.
#[derive(Drop)]
pub struct Bridging {
    pub service: Name,
    pub remote: Name,
    /// How many tries both sides have, and how many quiet events a far try.
    pub tries: u32,
    pub wait: u32,
    /// How many REQUESTs are answered; 0: there is no end.
    pub count: u64,
}

/// What the words ask for, which are those behind the program's name; None where they aren't ADDRESS `bridge` NAME ADDRESS2
/// NAME2 with its options.
pub(crate) fn read_bridging(words: &[String]) -> Option<Bridging>
    ensures exact { result ≡ bridging_in (map string_bytes words.now) }
    ensures lawful { IfSome result IsLawful }
{
    match words {
        [address, command, name, far, remote, options @ ..] => read_addressed(
            address.as_str(),
            command.as_str(),
            name.as_bytes(),
            far.as_str(),
            remote.as_bytes(),
            options,
        ),
        _ => None,
    }
}

fn read_addressed(
    address: &str,
    command: &str,
    name: &[u8],
    far: &str,
    remote: &[u8],
    options: &[String],
) -> Option<Bridging>
    ensures exact { result ≡ addressed_in address.now command.now name.now far.now remote.now (map string_bytes options.now) }
    ensures lawful { IfSome result IsLawful }
{
    if is_address(address) && command == "bridge" && is_address(far) {
        return read_named(name, remote, options);
    }
    None
}

/// An address isn't looked at but for its beginning, which tells it from an option.
fn is_address(address: &str) -> bool
    ensures { result ≡ BridgeWords.is_address address.now }
{
    !address.is_empty() && !address.starts_with("--")
}

fn read_named(name: &[u8], remote: &[u8], options: &[String]) -> Option<Bridging>
    ensures exact { result ≡ named_in name.now remote.now (map string_bytes options.now) }
    ensures lawful { IfSome result IsLawful }
{
    if !are_options(options, "--tries", "--wait", "--count") {
        return None;
    }
    let Some(service) = Name::of(name) else {
        return None;
    };
    let Some(remote) = Name::of(remote) else {
        return None;
    };
    read_options(service, remote, options)
}

fn read_options(service: Name, remote: Name, options: &[String]) -> Option<Bridging>
    ensures exact { result ≡ options_in service remote (map string_bytes options.now) }
    ensures lawful { IfSome result IsLawful }
{
    let Some(tries) = read_option(options, "--tries", 3, 1, 100) else {
        return None;
    };
    let Some(wait) = read_option(options, "--wait", 25, 1, 36_000) else {
        return None;
    };
    let Some(count) = read_option(options, "--count", 0, 1, 1_000_000_000) else {
        return None;
    };
    Some(Bridging {
        service,
        remote,
        tries: tries as u32,
        wait: wait as u32,
        count,
    })
}
