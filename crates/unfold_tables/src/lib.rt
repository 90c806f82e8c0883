#![tactic(auto)]

// 14 and the normal table of a picture, unfolded.
pub mod tables;
