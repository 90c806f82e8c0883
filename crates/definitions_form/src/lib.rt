#![tactic(auto)]

// The form of a definitions book (25), and the name and the picture of a definition.
pub mod form;
