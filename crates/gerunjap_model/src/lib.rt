// What the C interface does to lent memory: definitions, no code.
#![tactic(auto)]
