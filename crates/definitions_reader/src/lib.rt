#![tactic(auto)]

// What a definitions book is asked after its form (25) and before its pictures are unfolded: 2 to 13 of each
// definition, 26, 27.
pub mod excluded;
pub mod index;
pub mod readings;
