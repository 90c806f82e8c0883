#![tactic(auto)]

// The work space of the calls on two pictures. Definitions and laws; the code is in prepare_pair.
