#![tactic(auto)]

// The fifth call: the form of evidence (16), a map (17 to 20), a refutation (21 to 23).
pub mod check;
pub mod form;
pub mod verify;
