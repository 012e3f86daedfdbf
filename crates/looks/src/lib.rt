// The currency, and the calls that read, once refusals 1 to 4 are behind them.
#![tactic(auto)]

pub mod calls;
pub mod currency;
