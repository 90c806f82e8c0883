#![tactic(auto)]

// The answer word and the six calls as the C interface has them, and the starred cases. Definitions and theorems; the code is in zuvaropy.
