// The laws of the methodology, and demand 3 proved. No code.
#![tactic(auto)]
