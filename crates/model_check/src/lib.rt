#![tactic(auto)]

// The model check: whether individual 0 fits a table.
pub mod model;
