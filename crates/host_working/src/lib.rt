// What a caller written in C is told of the working of an event by include/honeyplank.h, as definitions. No code.
#![tactic(auto)]
