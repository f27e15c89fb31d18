use mj_base::NoMemory;
use mj_journal::OpenFault;
use thiserror::Error;

/// Why an event wasn't handled. The broker is spent from then on.
#[derive(Clone, Copy, Debug, PartialEq, Eq, Error)]
pub enum EventFault {
    /// An earlier event met a fault.
    #[error("the broker is spent")]
    Spent,
    /// Memory ran out.
    #[error("out of memory")]
    NoMemory,
    /// The file can't be opened again, or a body in it is damaged: somebody else wrote it.
    #[error("the file of tickets is refused")]
    Refused(OpenFault),
}

impl From<NoMemory> for EventFault {
    ghost use Rattle.std.specs.Prelude.{◌≡◌};
    ghost use Rattle.mj_broker.specs.declared.fault.EventFault.TheVariants.{NoMemory};

    ghost from_gives = { λ _ fault. fault ≡ NoMemory };

    fn from(_error: NoMemory) -> EventFault {
        EventFault::NoMemory
    }
}
