// Definitions and laws only: what a sheet answers, and demand 3; the code stands in the crate `sheets`.
#![tactic(auto)]
