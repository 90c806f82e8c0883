#![tactic(auto)]

// The second call.
pub mod normalize;
