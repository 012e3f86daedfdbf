// What a frame of a call does: definitions, no code.
#![tactic(auto)]
