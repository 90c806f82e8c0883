#![tactic(auto)]

// Refutations: the file, and the finite interpretation that it is. Definitions and laws; the code is in model_check and refutation_writer.
