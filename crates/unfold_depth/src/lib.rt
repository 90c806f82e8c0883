#![tactic(auto)]

// 30: the depth of an unfolded picture.
pub mod depth;
