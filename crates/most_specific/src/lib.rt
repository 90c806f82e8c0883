#![tactic(auto)]

// The sixth call.
pub mod most_specific;
