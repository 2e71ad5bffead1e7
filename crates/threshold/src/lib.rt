// Sharings, stages and chains: the output of a stage at a sharing, and running a chain.
#![tactic(auto)]

use design::Head;

mod blocks; // blocks.rt: the outputs of a stage at 64 sharings together
mod engine; // engine.rt: the output of a stage, and the sum of a sharing
mod runs; // runs.rt: stages and chains run on five shares

pub use blocks::Outputs;
pub use engine::{component_at, output_of, share_mask, sum_of};
pub use runs::{run, run_stage};

/// Five shares, the greatest number of them: they travel together by value, as C hands them over, and a head says how many count.
pub type FiveShares = [u8; Head::GREATEST_SHARES];
