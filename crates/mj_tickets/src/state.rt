/// What is told of a ticket to who names its id (ZeroMQ RFC 9).
#[derive(Clone, Copy, Debug, PartialEq, Eq)]
pub enum TicketState {
    /// There is no open ticket with this id: there never was, or it is closed.
    Unknown,
    /// The request is kept, and no reply yet.
    Pending,
    /// The reply is kept.
    Stored,
}
