// The day-ahead baseline, Average X of Y: source 001's tables, and both sides of each row of its shortage rules, as one table. No code.
#![tactic(auto)]
