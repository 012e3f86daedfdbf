// What the audit finds, in the terms of images and ledgers: laws only. No code.
#![tactic(auto)]
