// What is certain of the office's sheets, in proofs/: what is written reads back, and what is read can be written again.
#![tactic(auto)]
