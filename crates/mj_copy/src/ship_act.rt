use mj_base::Octets;

/// What ship wants done.
#[derive(Drop)]
pub enum ShipAct {
    /// These bytes are to be written to the link.
    Write(Octets),
    /// The command with this offset, counted from 0, is to be written to the link as a message.
    SendAt(u64),
    /// The link is to be opened anew. What is written next goes to the new one.
    Reopen,
    /// The copy has all commands.
    Done,
    /// The last try ended without an answer.
    NoAnswer,
}

/// Acts, in the order in which they are to be done.
pub type ShipActs = Vec<ShipAct>;
