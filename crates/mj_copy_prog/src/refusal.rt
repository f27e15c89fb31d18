/// What is said of a file that is refused.
#[derive(Clone, Copy, Debug, PartialEq, Eq)]
pub enum Refusal {
    /// It isn't a store.
    NotAStore,
    /// It is of another version.
    Version(u8),
    /// The bytes at this offset are damaged.
    Damaged(u64),
    /// It has this base, and the other end's file another one.
    Base(u64),
}
