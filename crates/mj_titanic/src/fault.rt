use mj_journal::OpenFault;

/// Why an act on the disk wasn't made.
#[derive(Clone, Copy, Debug, PartialEq, Eq)]
pub enum ActFault {
    /// Memory ran out.
    NoMemory,
    /// The file can't be opened again, or a body in it is damaged: somebody else wrote it.
    Refused(OpenFault),
}
