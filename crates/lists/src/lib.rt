// Definitions and laws only: what is said of lists of numbers, whatever the numbers stand for.
#![tactic(auto)]
