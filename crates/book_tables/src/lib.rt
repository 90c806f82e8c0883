#![tactic(auto)]

// The tables of the unfolded cards: 14, which cards cover the case, and the cache of their tables.
pub mod cache;
pub mod covering;
pub mod merged;
pub mod subsumers;
