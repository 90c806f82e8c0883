#![tactic(auto)]

// The questions of a definitions book and of the pictures that a call is given, in their order: 25; 2 to 13 of the
// definitions; 26; 27 of all; 28; 29 of all; 30 of all.
pub mod ask;
pub mod excluded;
pub mod lots;
pub mod measure;
pub mod question;
