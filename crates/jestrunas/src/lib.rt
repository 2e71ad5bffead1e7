// The published operations, without a `requires`. Each calls the layer below and turns its outcome into what C is answered, since C has no Result.
#![tactic(auto)]

ghost use Rattle.std.specs.Prelude.{◌≡◌, ◌≢◌, ◌↔◌, ◌≤◌, ◌<◌, ◌^◌, ℕ, length, take, drop};
ghost use Rattle.reasons.specs.Numbers.{reason_of};
ghost use Rattle.anf.specs.Transform.{transform_reason, transform_after, transformed};
ghost use Rattle.anf.specs.Explained.{TransformExplained};
ghost use Rattle.design.specs.Refused.{RefusedFor};
ghost use Rattle.threshold.specs.Running.{running};
ghost use Rattle.threshold.specs.Explained.{RunningExplained};
ghost use Rattle.checker.specs.Verdict.{verdict, workspace_after};
ghost use Rattle.checker.specs.Accepted.{Explained};
ghost use Rattle.checker.specs.Trials.{judging, trials, forecast};
ghost use Rattle.producer.specs.Producing.{producing, output_after, Succeeds};
ghost use Rattle.producer.specs.Explained.{ProducingExplained};
ghost use Rattle.joiner.specs.Joining.{joining, joined_after, JoiningExplained};
ghost use Rattle.jestrunas.specs.Published.{c_verdict, c_judged, c_forecast, c_ran, c_produced, read_answer, of_verdict, of_run};
ghost use Rattle.jestrunas.specs.Promised.{Reads, Early, WorkspaceZeroed, IsAccepted, IsAssured};
ghost use Rattle.jestrunas.specs.Promised.{ReadsDirect, Impossible, Joins, ReadsJoined};

mod answers; // answers.rt: what C is answered
pub mod laws; // laws.rt: the laws that stand on no operation

pub use answers::{Forecast, Judged, Produced, Ran, Verdict};
use checker::Refusal;
use reasons::Reason;
use threshold::FiveShares;

/// Five shares, the greatest number of them, by value: share j is below 2^m, and those after the s-th are 0. A struct, as C passes no array by value.
#[repr(C)]
#[derive(Clone, Copy, Debug, PartialEq, Eq)]
pub struct Shares {
    pub share: FiveShares,
}

/// Reads a design file (RULES 5): the first fault, 1 to 7, and its place in bytes from the start of the file; three zeros where the file reads.
pub fn jestrunas_read(file: &[u8]) -> Verdict
    ensures value { result ≡ c_verdict (read_answer file.now) }
    ensures reads { (result.reason ≡ 0) ↔ Reads file.now }
    ensures explained { result.reason ≢ 0 → RefusedFor file.now result.reason result.place }
{
    match design::read(file) {
        Ok(_) => Verdict {
            reason: 0,
            place: 0,
            component: 0,
        },
        Err(error) => Verdict::from(Refusal::Unreadable(error)),
    }
}

/// What a verdict on a design file can take, from its head record alone: bytes of workspace, and trials at most; or 1 to 4, the fault of the head record, and
/// two zeros.
pub fn jestrunas_forecast(file: &[u8]) -> Forecast
    ensures value { result ≡ c_forecast (forecast file.now) }
    ensures most { (n : ℕ) → trials file.now n ≤ result.trials }
    ensures enough { (n : ℕ) → result.workspace ≤ n → (verdict file.now n).reason ≢ 9 }
    ensures needed { (n : ℕ) → n < result.workspace → (verdict file.now n).reason ≢ 0 }
{
    Forecast::from(checker::foresee(file))
}

/// The verdict on a design file, and its trials: 0 and the number of stages where it is accepted; or 1 to 10 or 12 to 14, with the place in bytes, or the stage
/// and for 13 the component, counted from 1. With 1 to 9 the workspace is untouched; else its first 2^(m × s) / 8 bytes are zero and the rest is untouched.
pub fn jestrunas_judge(file: &[u8], workspace: &mut [u8]) -> Judged
    ensures value { result ≡ c_judged (judging file.now (length workspace.old)) }
    ensures workspace_after { workspace.new ≡ workspace_after file.now workspace.old }
    ensures accepted { (result.verdict.reason ≡ 0) ↔ IsAccepted file.now (length workspace.old) }
    ensures explained { Explained file.now (length workspace.old) (of_verdict result.verdict) }
    ensures assured { result.verdict.reason ≡ 0 → IsAssured file.now }
    ensures foreseen { result.trials ≤ (forecast file.now).trials }
    ensures untouched { Early result.verdict.reason → workspace.new ≡ workspace.old }
    ensures zeroed { WorkspaceZeroed file.now result.verdict.reason workspace.old workspace.new }
{
    Judged::from(checker::judge(file, workspace))
}

/// Runs the chain of a design file on five shares: 0 and the output shares; or 1 to 7, a fault of reading, or 15, a share of 2^m or more or one after the
/// s-th that is not 0, with five zeros.
pub fn jestrunas_run(file: &[u8], shares: Shares) -> Ran
    ensures value { result ≡ c_ran (running file.now shares.share) }
    ensures explained { RunningExplained file.now shares.share (of_run result) }
{
    Ran::from(threshold::run(file, shares.share))
}

/// Writes the direct sharing of a table of 2^m entries with s shares by a placement: 0 and the length of the file in bytes; or 3, 4, 5, 8, 16, 17 or 21, with
/// length 0 and the output untouched.
pub fn jestrunas_produce(
    m: usize,
    s: usize,
    table: &[u8],
    placement: &[u8],
    output: &mut [u8],
) -> Produced
    ensures value { result
        ≡ c_produced (producing m s table.now placement.now (length output.old)) }
    ensures output_after { output.new ≡ output_after m s table.now placement.now output.old }
    ensures succeeds { (result.reason ≡ 0)
        ↔ Succeeds m s table.now placement.now (length output.old) }
    ensures explained { ProducingExplained m s table.now placement.now (length output.old)
        result.reason }
    ensures impossible { Impossible m s table.now placement.now result.reason }
    ensures reads { result.reason ≡ 0
        → ReadsDirect m s table.now placement.now (take result.length output.new) }
    ensures rest { result.reason ≡ 0
        → drop result.length output.new ≡ drop result.length output.old }
    ensures refused { result.reason ≢ 0 → output.new ≡ output.old }
{
    Produced::from(producer::produce(m, s, table, placement, output))
}

/// Joins two design files into one, the second behind the first: 0 and the length of the file in bytes; or 1 to 7, a fault of reading, 17, 19 or 20, with
/// length 0 and the output untouched.
pub fn jestrunas_join(first: &[u8], second: &[u8], output: &mut [u8]) -> Produced
    ensures value { result ≡ c_produced (joining first.now second.now (length output.old)) }
    ensures output_after { output.new ≡ joined_after first.now second.now output.old }
    ensures succeeds { (result.reason ≡ 0) ↔ Joins first.now second.now (length output.old) }
    ensures explained { JoiningExplained first.now second.now (length output.old) result.reason }
    ensures reads { result.reason ≡ 0
        → ReadsJoined first.now second.now (take result.length output.new) }
    ensures rest { result.reason ≡ 0
        → drop result.length output.new ≡ drop result.length output.old }
    ensures refused { result.reason ≢ 0 → output.new ≡ output.old }
{
    Produced::from(joiner::join(first, second, output))
}

// The number of an outcome, 0 of success: for C, which has no Result.
fn number(outcome: Result<(), Reason>) -> usize
    ensures { result ≡ reason_of outcome }
{
    match outcome {
        Ok(()) => 0,
        Err(reason) => reason.number(),
    }
}

/// The 2^m coefficient words of a table, or the table of coefficient words: 0; or 3, 4, 5 or 17, with the output untouched.
pub fn jestrunas_transform(m: usize, input: &[u8], output: &mut [u8]) -> usize
    ensures value { result ≡ transform_reason m input.now (length output.old) }
    ensures output_after { output.new ≡ transform_after m input.now output.old }
    ensures explained { TransformExplained m input.now (length output.old) result }
    ensures words { result ≡ 0 → take (2 ^ m) output.new ≡ transformed m input.now }
    ensures rest { result ≡ 0 → drop (2 ^ m) output.new ≡ drop (2 ^ m) output.old }
    ensures refused { result ≢ 0 → output.new ≡ output.old }
{
    number(anf::transform(m, input, output))
}
