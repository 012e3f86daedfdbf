// What STORE, RELINK and MODIFY decide and write on bytes: definitions, no code.
#![tactic(auto)]
