//! Tests of what stands on the wire, which stand apart so that the crates are proved once.
#![tactic(auto)]

#[cfg(test)]
mod frames;
#[cfg(test)]
mod greeting;
#[cfg(test)]
mod handshake;
#[cfg(test)]
mod stream;
