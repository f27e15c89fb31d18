//! Tables of what may go wrong, over the whole program: bytes, files, and failing calls.
#![tactic(auto)]

#[cfg(test)]
mod calls;
#[cfg(test)]
mod files;
#[cfg(test)]
mod prefixes;
#[cfg(test)]
mod runs;
