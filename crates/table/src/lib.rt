#![tactic(auto)]

// The byte form of a table: layout, numbers with the high byte first, sets of names, a row by value. A row's place is
// `layout::place`; reading its fields, and a table under construction, are in table_rows.
pub mod layout;
pub mod names;
pub mod number;
pub mod row;
