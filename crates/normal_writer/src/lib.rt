#![tactic(auto)]

// The rows of a normal table: merged rows are made depth first, counted (14), and tidied on the way back up. And the
// whole table.
pub mod grow;
pub mod node;
pub mod write;
