// Definitions and laws only: a relay's pool, how it is dealt, and what a relay is answered (document 02, L9).
#![tactic(auto)]
