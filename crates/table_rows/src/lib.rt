#![tactic(auto)]

// Rows of a table: the fields of a row by its number, the end field, and the table under construction.
pub mod builder;
pub mod row;
