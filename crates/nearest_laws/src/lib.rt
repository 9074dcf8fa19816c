// The definition of Nearest and what is proved of it; the code stands in the crate `nearest`.
#![tactic(auto)]
