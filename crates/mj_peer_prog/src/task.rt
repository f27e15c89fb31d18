use mj_base::{Name, Version};

/// What the words ask for.
#[derive(Drop)]
pub enum Task {
    /// `client`: to ask for each line of the input.
    Client(Asking),
    /// `worker`: to answer each request with its own body.
    Worker(Serving),
}

#[derive(Drop)]
pub struct Asking {
    pub version: Version,
    pub service: Name,
    /// How many tries a request has, and how many quiet events a try has.
    pub tries: u32,
    pub wait: u32,
}

#[derive(Drop)]
pub struct Serving {
    pub version: Version,
    pub service: Name,
    pub tries: u32,
    /// How many partial replies stand before each final one.
    pub parts: u32,
    /// How many requests are answered; 0: there is no end.
    pub count: u64,
}
