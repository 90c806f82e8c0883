#![tactic(auto)]

// The fourth call: the common picture of two pictures, their least common subsumer. Definitions and theorems; the code is in product_rows, product_writer and lcs_call.
