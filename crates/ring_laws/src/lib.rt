// What walks round the rings of a sound file find, in the terms of its ledger: laws only. No code.
#![tactic(auto)]
