use std::collections::LinkedList;

/// What one pass of a channel knows. No value of it is made.
pub struct View<T> {
    /// Whether the pass is a sender's, which sender's, and what that sender sent.
    pub sends: bool,
    pub from: u64,
    pub sent: LinkedList<T>,
    /// Whether it is the taker's, what was taken, and how many senders were made.
    pub takes: bool,
    pub taken: LinkedList<T>,
    pub made: u64,
}
