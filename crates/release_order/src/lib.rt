// What is certain of a task's releases over any calls, in proofs/: when each is released, and the order of its stored runs.
#![tactic(auto)]
