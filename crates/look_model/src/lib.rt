// What the currency and the calls that read compute on bytes: definitions, no code.
#![tactic(auto)]
