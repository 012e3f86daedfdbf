// What a deletion computes on bytes: definitions, no code.
#![tactic(auto)]
