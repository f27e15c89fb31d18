/// The rows in front of a row and behind it in a chain.
#[derive(Clone, Copy, Debug, PartialEq, Eq)]
pub struct Link {
    pub prev: Option<usize>,
    pub next: Option<usize>,
}

/// The first row of a chain and the last.
#[derive(Clone, Copy, Debug, PartialEq, Eq)]
pub struct Ends {
    pub first: Option<usize>,
    pub last: Option<usize>,
}

/// The chains in which a row stands: with all of its kind, with those of its service, and with those of who sent it.
#[derive(Clone, Copy, Debug, PartialEq, Eq)]
pub enum Chain {
    All,
    Service,
    Origin,
}

/// A row.
#[derive(Drop)]
pub struct Node<T> {
    pub value: T,
    pub all: Link,
    pub service: Link,
    pub origin: Link,
}
