// Document 02 a, a journal for power loss: that recovery leaves the file before a call or the file after it. No code.
#![tactic(auto)]
