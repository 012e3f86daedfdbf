// What walks in rings compute on bytes: definitions, no code.
#![tactic(auto)]
