#![tactic(auto)]

// The picture of a definition as a part of the definitions book, and defined names one by one.
pub mod names;
pub mod opened;
pub mod part;
