#![tactic(auto)]

// The third call: the verdict on two pictures, with evidence. Definitions and theorems; the code is in subsumes.
pub mod verdict;
