#![tactic(auto)]

// The fifth call: evidence, its questions 16 to 23, and what is taken. Definitions and theorems; the code is in evidence_check.
pub mod check;
