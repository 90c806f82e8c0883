#![tactic(auto)]

// The answer word: its parts put together, and the word of each call's answer.
pub mod answers;
pub mod word;
