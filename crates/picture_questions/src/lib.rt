#![tactic(auto)]

// The questions about a field's tag and a row's parts, each by itself; their order is in picture_reader.
pub mod question;
