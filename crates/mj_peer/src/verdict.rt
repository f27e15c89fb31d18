/// What follows on a quiet event.
#[derive(Clone, Copy)]
pub enum Verdict {
    /// Nothing.
    Stay,
    /// The link is opened anew.
    Again,
    /// The last try has ended.
    Lost,
}
