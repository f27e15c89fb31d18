//! The tests of the ticket commands and of the tickets, in a crate of their own so that those are proved once.
#![tactic(auto)]

#[cfg(test)]
mod commands;
#[cfg(test)]
mod made;
#[cfg(test)]
mod tickets;
