use mj_ids::TicketId;

/// How far the first line is that isn't closed.
#[derive(Clone, Copy, Debug, PartialEq, Eq)]
pub enum Stage {
    /// It has no ticket.
    Fresh,
    /// It has this ticket.
    Ticket(TicketId),
    /// It has this ticket, whose reply was printed.
    Delivered(TicketId),
}

/// How far a submitter's file is.
#[derive(Clone, Copy, Debug, PartialEq, Eq)]
pub struct Progress {
    /// So many lines are closed, the first ones of the input.
    pub closed: u64,
    pub stage: Stage,
}
