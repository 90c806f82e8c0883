#![tactic(auto)]

// The fields of a book of one tag by place: card books and definitions books.
pub mod places;
