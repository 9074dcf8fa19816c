// No code: document 01's example as a theorem, from the bytes of its sheet to the bytes that are printed.
#![tactic(auto)]
