use mj_ids::TicketId;

/// What the submitter's file says of a line of the input, which are counted from 1.
#[derive(Clone, Copy, Debug, PartialEq, Eq)]
pub enum Note {
    /// The broker gave a ticket for it.
    Issued { line: u64, id: TicketId },
    /// Its reply was printed.
    Given { line: u64 },
    /// Its ticket is closed.
    Closed { line: u64 },
}
