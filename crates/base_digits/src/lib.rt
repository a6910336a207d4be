// Numbers in decimal digits as a definition, which is std's too; no code: `itoa` writes them.
#![tactic(auto)]
