// The lines of a listing as a definition, and what writing them into a buffer comes to: no code.
#![tactic(auto)]
