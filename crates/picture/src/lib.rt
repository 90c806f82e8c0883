#![tactic(auto)]

// Pictures: questions 2 to 13 and what they leave of a file; the answer types. Definitions and laws; the code is in picture_reader.
pub mod answer;
pub mod field;
pub mod read;
