#![tactic(auto)]

// The product of two tables, made depth first along both.
pub mod graft;
