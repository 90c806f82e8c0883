#![tactic(auto)]

// Rings of definitions (28).
pub mod rings;
pub mod uses;
