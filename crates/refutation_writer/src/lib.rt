#![tactic(auto)]

// The refutation that is written.
pub mod refute;
pub mod writer;
