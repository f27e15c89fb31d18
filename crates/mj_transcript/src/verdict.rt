/// What an audit says behind a line.
#[derive(Clone, Copy, PartialEq, Eq, Debug)]
pub enum Verdict {
    /// All lines so far are lawful and keep the laws.
    Held,
    /// The line isn't lawful; no law is looked at.
    Unlawful,
    /// The line is lawful, and the first line with which a law is broken.
    Broken(Law),
}

/// The laws of a transcript (ZeroMQ RFC 7; RFC 23 for the wire).
#[derive(Clone, Copy, PartialEq, Eq, Debug)]
pub enum Law {
    /// What is sent is a stream of replies to clients and of orders to workers.
    Wire,
    /// Requests and replies reach whom they are for.
    Owner,
    /// A request goes to a worker that waits.
    Busy,
    /// No request waits while a worker of its service waits.
    Waiting,
}
