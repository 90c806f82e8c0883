#![tactic(auto)]

// Sets of file rows, as the normal-table writer has them: links and masks, the label of a set, and what hangs from it.
pub mod below;
pub mod label;
pub mod linked;
pub mod members;
pub mod rows;
pub mod survey;
pub mod values;
