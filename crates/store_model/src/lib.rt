// What the public calls compute on bytes: definitions and their laws, no code.
#![tactic(auto)]
