// No code: that the text of a sheet is read back to the same bytes, a law of the two definitions.
#![tactic(auto)]
