#![tactic(auto)]

// ALE description trees: what they mean, when one subsumes another, their normal form and their least common subsumer.
// Picture q covers picture p exactly if the normal tree of q maps to that of p (`subsumption-homomorphism`); if it does not, a finite
// interpretation of bounded size has an individual that fits p and not q (`small-countermodel`); the product of the normal trees is the
// least common subsumer (`lcs-least`). Definitions (specs/) and theorems (proofs/) only, over any signature; no code, no bytes.
