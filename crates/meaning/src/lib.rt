#![tactic(auto)]

// What a picture file means: the description tree that its rows are, and a tree as a picture file again. Definitions (specs/) and
// theorems (proofs/) only; here the bytes of `table` and `picture` meet the trees of `ale`.
