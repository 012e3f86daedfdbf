// What each function of the audit computes on bytes: definitions and their laws. No code.
#![tactic(auto)]
