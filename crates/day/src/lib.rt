// The plain model of a rehearsal's day: definitions and laws alone.
#![tactic(auto)]
