// Definitions and laws on lists of numbers: all of it stands in specs/ and proofs/.
#![tactic(auto)]
