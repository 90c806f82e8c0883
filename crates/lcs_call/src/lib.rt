#![tactic(auto)]

// The fourth call.
pub mod call;
