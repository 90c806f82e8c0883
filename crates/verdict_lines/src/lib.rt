#![tactic(auto)]

// The lines of the verdict program, gathered in a buffer: each function's contract says every byte.
pub mod gather;
pub mod text;
