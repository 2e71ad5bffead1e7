// Sharings, stages and chains: definitions and laws alone, for the crates that run, judge or make them.
#![tactic(auto)]
