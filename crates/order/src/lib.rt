#![tactic(auto)]

// Preorders on the numbers below n. Definitions and laws; there is no code.
