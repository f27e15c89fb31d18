/// How far an end has come.
#[derive(Clone, Copy, Debug, PartialEq, Eq)]
pub enum Phase {
    /// It takes what its link gives.
    Going,
    /// The copy has all commands.
    Finished,
    /// The last try ended without an answer.
    GivenUp,
}
