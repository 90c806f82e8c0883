#![tactic(auto)]

// Homomorphisms between two tables as map files. Definitions and laws; the code is in homomorphism_search and map_writer.
