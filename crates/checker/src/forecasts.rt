// What a verdict can take, from the head record alone.
ghost use Rattle.std.specs.Prelude.{◌≡◌};
ghost use Rattle.checker.specs.Verdict.{workspace_for};
ghost use Rattle.checker.specs.Trials.{most_trials, forecast};
ghost use Rattle.checker.specs.Outcome.{forecast_of};

use super::Needs;
use design::Head;
use finite::power;
use reasons::Reason;

// The bytes of workspace: one bit for each sharing.
pub fn workspace_for(head: Head) -> usize
    ensures { result ≡ workspace_for head.m head.s }
{
    power(head.share_bits()) / 8
}

// The most trials: two passes over all sharings in each stage.
fn most_trials(head: Head) -> usize
    ensures { result ≡ most_trials head.m head.s head.k }
{
    2 * head.k * power(head.share_bits())
}

// What a verdict on a file can take, whatever follows its head record.
pub fn foresee(file: &[u8]) -> Result<Needs, Reason>
    ensures { forecast_of result ≡ forecast file.now }
{
    let head = design::read_head(file)?;
    Ok(Needs {
        workspace: workspace_for(head),
        trials: most_trials(head),
    })
}
