//! The machine's own runs, judged as transcripts.
#![tactic(auto)]

mod laws;

pub use laws::the_machine_passes_its_audit;
