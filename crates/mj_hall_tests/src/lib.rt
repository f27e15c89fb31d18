//! Tests of the hall and the leases over counted rows: what they answer is what the flat ones answer, call by call,
//! also where labels end on the way.
#![tactic(auto)]

#[cfg(test)]
mod apart;
#[cfg(test)]
mod hall;
#[cfg(test)]
mod leases;
