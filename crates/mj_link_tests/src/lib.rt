//! A test of the link over TCP, which stands apart so that its crate is proved once.
#![tactic(auto)]

#[cfg(test)]
mod sockets;
