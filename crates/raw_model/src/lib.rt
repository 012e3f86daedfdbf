// What calls do without refusals 1 to 4, and these alone: definitions, no code. For measuring only.
#![tactic(auto)]
