#![tactic(auto)]

// The third call.
pub mod subsumes;
pub mod verdict;
