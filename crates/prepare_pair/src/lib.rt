#![tactic(auto)]

// What the calls on two pictures begin with, under a definitions book: 1 is answered, both are read, the questions of
// the book are asked, and 14 of both, unfolded; then their normal tables are written into the halves of the work space.
pub mod prepare;
pub mod tables;
pub mod unfolded;
