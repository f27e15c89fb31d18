//! Services that the broker answers itself.
ghost use Rattle.std.specs.Prelude.{◌≡◌, is_some};
ghost use Rattle.mj_machine.specs.TitanicStep.{titanic_of};

use mj_base::Name;

const SUBMIT: &[u8] = b"titanic.request";

const FETCH: &[u8] = b"titanic.reply";

const FINISH: &[u8] = b"titanic.close";

/// Whether this is the name of one of Titanic's services (ZeroMQ RFC 9).
pub fn is_titanic(name: &Name) -> bool
    ensures { result ≡ is_some (titanic_of name.now) }
{
    let name = name.as_slice();
    name == SUBMIT || name == FETCH || name == FINISH
}
