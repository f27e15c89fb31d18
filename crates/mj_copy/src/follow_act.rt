use mj_base::Octets;

/// What follow wants done.
#[derive(Drop)]
pub enum FollowAct {
    /// These bytes are to be written to the link.
    Write(Octets),
    /// The file is to be opened, with this base where it is made anew. It stands last.
    Open(u64),
    /// This payload is to be appended to the file. It stands last.
    Append(Octets),
    /// The link is to be opened anew. What is written next goes to the new one.
    Reopen,
    /// The file has all commands.
    Done,
    /// The last try ended without an answer.
    NoAnswer,
}

/// Acts, in the order in which they are to be done.
pub type FollowActs = Vec<FollowAct>;
