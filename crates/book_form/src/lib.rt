#![tactic(auto)]

// The cards of a book: its form (24), a card as a part of it, and words of cards.
pub mod form;
pub mod word;
