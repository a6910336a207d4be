// How long a listing gets at most; no code.
#![tactic(auto)]
