#![tactic(auto)]

// Question 14 before any table is built: an upper bound on the merged rows, which settles most pictures, and their
// exact count up to the limit.
pub mod bound;
pub mod count;
pub mod within;
