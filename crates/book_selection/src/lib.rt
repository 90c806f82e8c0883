#![tactic(auto)]

// The cards that cover the case, compared with each other.
pub mod cards;
pub mod compare;
pub mod spot;
