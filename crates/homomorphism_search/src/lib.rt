#![tactic(auto)]

// The search for a homomorphism between two tables.
pub mod edge;
pub mod label;
pub mod search;
