// What is read and written in a file's bytes, in the terms of its image and of its ledger: laws only. No code.
#![tactic(auto)]
