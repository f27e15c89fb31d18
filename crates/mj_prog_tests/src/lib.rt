//! Tests of the top call, which stand apart so that its crate is proved once.
#![tactic(auto)]

#[cfg(test)]
mod routed_runs;
#[cfg(test)]
mod runs;
#[cfg(test)]
mod stored_runs;
#[cfg(test)]
mod tests;
#[cfg(test)]
mod worked_runs;
