#![tactic(auto)]

// A map, row by row (17 to 20), and the refusal by a question about evidence.
pub mod map;
pub mod refusal;
