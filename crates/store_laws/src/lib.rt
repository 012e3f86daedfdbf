// What the calls' models have to do with the ledger: laws only. No code.
#![tactic(auto)]
