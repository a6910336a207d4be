// Moved holidays: the lines of document 02, order 2, and those on both sides of each of its clauses, as one table. No code.
#![tactic(auto)]
