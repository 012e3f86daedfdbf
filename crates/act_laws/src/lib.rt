// What STORE, RELINK and MODIFY have to do with the ledger: laws only. No code.
#![tactic(auto)]
