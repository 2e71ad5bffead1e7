// The verdict on a design file, and the forecast of what it can take.
#![tactic(auto)]

mod forecasts; // forecasts.rt: the workspace and the most trials, from the head
mod marks; // marks.rt: marks in a lent workspace
mod refusals; // refusals.rt: why a file is refused
mod stages; // stages.rt: one stage judged on all its sharings
mod tables; // tables.rt: the chain of tables

ghost use Rattle.std.specs.Prelude.{◌≡◌, ◌<◌, length};
ghost use Rattle.design.specs.Inside.Held.{design_of};
ghost use Rattle.checker.specs.Verdict.{judged, workspace_left, workspace_after};
ghost use Rattle.checker.specs.Trials.{judging};
ghost use Rattle.checker.specs.Outcome.{judged_of, untried};
ghost use Rattle.checker.specs.Inside.Parts.{TablesPermute, with_trials, stages_judged, stage_judging, stage_judged_of};
ghost use Rattle.checker.specs.Inside.Marks.{Cleared};

use design::DesignFile;
pub use forecasts::foresee;
use forecasts::workspace_for;
use marks::clear;
pub use refusals::Refusal;
use stages::{first_met, first_wrong, offending, tries};
use tables::chain_is_box;

/// What judging a file comes to.
#[derive(Clone, Copy, Debug, PartialEq, Eq)]
pub struct Judgement {
    /// The number of stages where it is accepted, or the reason of the refusal.
    pub outcome: Result<usize, Refusal>,
    /// How many trials it took (RULES 7.4).
    pub trials: usize,
}

impl Judgement {
    // A refusal before any trial.
    fn untried(refusal: Refusal) -> Judgement
        ensures { judged_of result ≡ untried refusal }
    {
        Judgement {
            outcome: Err(refusal),
            trials: 0,
        }
    }
}

// What judging a stage comes to: its fault, if it has one, and the trials that its passes took.
#[derive(Clone, Copy)]
struct StageJudgement {
    fault: Option<Refusal>,
    trials: usize,
}

/// What a verdict can take, by the head alone (RULES 7.6).
#[derive(Clone, Copy, Debug, PartialEq, Eq)]
pub struct Needs {
    /// How many bytes of workspace it needs.
    pub workspace: usize,
    /// The most trials that it takes.
    pub trials: usize,
}

// Stage `t`, counted from 0: 12, 13 or 14. The marks are zero before and after. From here up the workspace is lent beside the design: a struct of both is no
// plainer, as each contract says of it by itself what it is afterwards.
fn judge_stage(design: &DesignFile<'_>, t: usize, workspace: &mut [u8]) -> StageJudgement
    requires stage { t < design.now.head.k }
    requires cleared { Cleared (design_of design.now) workspace.old }
    requires permutations { TablesPermute (design_of design.now) }
    ensures value { stage_judged_of result ≡ stage_judging (design_of design.now) t }
    ensures workspace_unchanged { workspace.new ≡ workspace.old }
{
    let wrong = first_wrong(design, t);
    let once = tries(design.head, wrong);
    if wrong.is_some() {
        return StageJudgement {
            fault: Some(Refusal::NotCorrect { stage: t + 1 }),
            trials: once,
        };
    }
    if let Some(j) = offending(design, t) {
        return StageJudgement {
            fault: Some(Refusal::NotNonComplete {
                stage: t + 1,
                component: j + 1,
            }),
            trials: once,
        };
    }
    let met = first_met(design, t, workspace);
    let both = once + tries(design.head, met);
    if met.is_some() {
        return StageJudgement {
            fault: Some(Refusal::NotUniform { stage: t + 1 }),
            trials: both,
        };
    }
    StageJudgement {
        fault: None,
        trials: both,
    }
}

// The stages, each judged, up to the first with a fault. Here alone trials add up.
fn judge_stages(design: &DesignFile<'_>, workspace: &mut [u8]) -> Judgement
    requires cleared { Cleared (design_of design.now) workspace.old }
    requires permutations { TablesPermute (design_of design.now) }
    ensures value { let d = design_of design.now in
        judged_of result ≡ with_trials d (stages_judged d) }
    ensures workspace_unchanged { workspace.new ≡ workspace.old }
{
    let k = design.head.k;
    let mut trials = 0;
    for t in 0..k {
        let stage = judge_stage(design, t, workspace);
        trials += stage.trials;
        if let Some(refusal) = stage.fault {
            return Judgement {
                outcome: Err(refusal),
                trials,
            };
        }
    }
    Judgement {
        outcome: Ok(k),
        trials,
    }
}

// The design of a file that reads: 8 and above.
fn judge_design(design: &DesignFile<'_>, workspace: &mut [u8]) -> Judgement
    ensures value { let d = design_of design.now in
        judged_of result ≡ with_trials d (judged d (length workspace.old)) }
    ensures workspace_after { let d = design_of design.now in
        workspace.new ≡ workspace_left d (judged d (length workspace.old)).reason workspace.old }
{
    if anf::repeats(design.box_table()) {
        return Judgement::untried(Refusal::BoxRepeats);
    }
    let n = workspace_for(design.head);
    if workspace.len() < n {
        return Judgement::untried(Refusal::WorkspaceTooSmall);
    }
    clear(workspace, n);
    if !chain_is_box(design) {
        return Judgement::untried(Refusal::ChainIsNotBox);
    }
    judge_stages(design, workspace)
}

/// The verdict on a file, with a lent workspace, and its trials.
pub fn judge(file: &[u8], workspace: &mut [u8]) -> Judgement
    ensures value { judged_of result ≡ judging file.now (length workspace.old) }
    ensures workspace_after { workspace.new ≡ workspace_after file.now workspace.old }
{
    match design::read(file) {
        Ok(design) => judge_design(&design, workspace),
        Err(error) => Judgement::untried(Refusal::Unreadable(error)),
    }
}
