// Words about lists that the definitions of the other crates use, and their laws; lists over places, and buffers that a loop fills from the front.
// No code.
#![tactic(auto)]
