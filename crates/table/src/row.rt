// The fields of a row. Reading them by the row's number is in table_rows.
use crate::names::Names;

// A row by value: what a table under construction takes.
#[derive(Clone, Copy)]
pub struct Row {
    pub parent: usize,
    pub kind: u8,
    pub role: u8,
    pub impossible: u8,
    pub wanted: Names,
    pub excluded: Names,
}
