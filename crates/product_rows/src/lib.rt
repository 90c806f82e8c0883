#![tactic(auto)]

// Rows of the product of two tables: the order of edges, a row entered and left, and a subtree copied.
pub mod copy;
pub mod edge;
pub mod node;
