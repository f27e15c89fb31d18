use thiserror::Error;

/// Why a command isn't applied. Nothing changed.
#[derive(Clone, Copy, Debug, PartialEq, Eq, Error)]
pub enum ApplyFault {
    /// It may not follow the commands before it.
    #[error("the command is unlawful")]
    Unlawful,
    /// Memory ran out.
    #[error("out of memory")]
    NoMemory,
}
