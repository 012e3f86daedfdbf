// What a deletion marks in a sound file's bytes, and the currency after it, in the terms of its ledger: laws only. No code.
#![tactic(auto)]
