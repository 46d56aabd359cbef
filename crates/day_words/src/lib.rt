// What a rehearsal is in the request's words: definitions and laws alone.
#![tactic(auto)]
