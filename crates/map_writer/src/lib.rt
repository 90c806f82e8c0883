#![tactic(auto)]

// The map file: its layout, and the map that is written.
pub mod layout;
pub mod map;
