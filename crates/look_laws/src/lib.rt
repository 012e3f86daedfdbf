// What the calls that read have to do with the ledger: laws only. No code.
#![tactic(auto)]
