#![tactic(auto)]

// The reader of a picture: questions 2 to 13, field by field.
pub mod field;
pub mod read;
