// The three demands of the order as statements about a call, and their laws. No code.
#![tactic(auto)]
