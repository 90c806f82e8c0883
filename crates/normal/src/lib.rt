#![tactic(auto)]

// The second call: its answer, and a normal table in a lent buffer. Definitions and laws; the code is in row_sets, normal_writer and normalize_call.
