#![tactic(auto)]

// A refutation read: its form, its individuals by number, question 21, and links from each individual to those that it reaches.
pub mod individual;
pub mod layout;
pub mod links;
pub mod refutation;
