use mj_base::Event;

/// What a line of a script says.
#[derive(Drop)]
pub enum Meaning {
    /// This event comes.
    Act(Event),
    /// Nothing: the line is empty or a comment.
    Nothing,
    /// Nothing comes any more.
    Stop,
    /// The line is no line of a script.
    Unlawful,
}
