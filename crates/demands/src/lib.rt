// What is certain, on one page each in proofs/; its folder Beneath has the laws that only the pages need.
#![tactic(auto)]
