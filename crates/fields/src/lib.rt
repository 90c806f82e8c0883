#![tactic(auto)]

// The fields of a file, one after the other, by place. Definitions and laws; the code is in field_places.
