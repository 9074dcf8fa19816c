// The definition of Closest and its laws, for crate `closest`: no code stands here.
#![tactic(auto)]
