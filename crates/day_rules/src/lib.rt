// The rules of a rehearsal's day, tick by tick: definitions and laws alone.
#![tactic(auto)]
