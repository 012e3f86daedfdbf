// What frames, the C interface and the player's lines have to do with the ledger: definitions and laws. No code.
#![tactic(auto)]
