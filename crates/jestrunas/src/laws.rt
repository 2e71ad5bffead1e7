// The laws that stand on no operation: each function has an empty body, and its contract states them for all inputs.
#![tactic(auto)]

ghost use Rattle.jestrunas.specs.Promised.{Transform, TransformTwice, TransformAnswered, UniqueLists, Dependence, DegreeLimit};
ghost use Rattle.jestrunas.specs.Promised.{FileExactly, HeadAnswer, ReasonRange, ReadingExplained, OneMeaningOneFile, Reader};
ghost use Rattle.jestrunas.specs.Promised.{DependsExactly, UniformCounted, Products, ShareableExactly};
ghost use Rattle.jestrunas.specs.Promised.{AcceptedExactly, VerdictExplained, SoundAssured, RunningAnswered, ChainPermutes};
ghost use Rattle.jestrunas.specs.Promised.{ElevenRetired, ElevenNotGiven, TrialsAccepted, TrialsNone, TrialsOutcome};
ghost use Rattle.jestrunas.specs.Promised.{ForecastHead, ForecastRefused, ForecastRange, ForecastReads, ForecastReached};
ghost use Rattle.jestrunas.specs.Promised.{ProductXy, PublishedThree, PublishedFour, PublishedFive};
ghost use Rattle.jestrunas.specs.Promised.{ProducedReads, ProducedUsual, ProducedJudged, ProducingAnswered, PlacementExactly};
ghost use Rattle.jestrunas.specs.Promised.{OldPlacement, ProducedSize, ProducedMost, MostMet, OutputEnough};
ghost use Rattle.jestrunas.specs.Promised.{JoinedReads, JoinedBox, JoinedAccepted, JoinedRuns, JoiningAnswered, JoinedLength, JoinedRoom};

// Normal form: terms, lists, degree.
pub fn about_normal_form()
    ensures transform { Transform }
    ensures transform_twice { TransformTwice }
    ensures transform_explained { TransformAnswered }
    ensures unique_lists { UniqueLists }
    ensures dependence { Dependence }
    ensures degree_limit { DegreeLimit }
{}

// The design file, and what a reader of it promises.
pub fn about_files()
    ensures file_exactly { FileExactly }
    ensures head_answer { HeadAnswer }
    ensures reason_range { ReasonRange }
    ensures reading_explained { ReadingExplained }
    ensures one_meaning_one_file { OneMeaningOneFile }
    ensures reader { Reader }
{}

// The terms of threshold implementation.
pub fn about_sharings()
    ensures depends_exactly { DependsExactly }
    ensures uniform_counted { UniformCounted }
    ensures products { Products }
    ensures shareable_exactly { ShareableExactly }
{}

// The verdict and its trials; running.
pub fn about_verdicts()
    ensures accepted_exactly { AcceptedExactly }
    ensures verdict_explained { VerdictExplained }
    ensures sound_assured { SoundAssured }
    ensures run_explained { RunningAnswered }
    ensures chain_permutes { ChainPermutes }
    ensures eleven_retired { ElevenRetired }
    ensures eleven_not_given { ElevenNotGiven }
    ensures trials_accepted { TrialsAccepted }
    ensures trials_none { TrialsNone }
    ensures trials_outcome { TrialsOutcome }
{}

// The forecast, from the head record alone.
pub fn about_forecasts()
    ensures forecast_head { ForecastHead }
    ensures forecast_refused { ForecastRefused }
    ensures forecast_range { ForecastRange }
    ensures forecast_reads { ForecastReads }
    ensures forecast_reached { ForecastReached }
{}

// The direct sharing and producing.
pub fn about_production()
    ensures product_xy { ProductXy }
    ensures published_three { PublishedThree }
    ensures published_four { PublishedFour }
    ensures published_five { PublishedFive }
    ensures produced_reads { ProducedReads }
    ensures produced_usual { ProducedUsual }
    ensures produced_judged { ProducedJudged }
    ensures produced_explained { ProducingAnswered }
    ensures placement_exactly { PlacementExactly }
    ensures old_placement { OldPlacement }
    ensures produced_size { ProducedSize }
    ensures produced_most { ProducedMost }
    ensures most_met { MostMet }
    ensures output_enough { OutputEnough }
{}

// Joining two files.
pub fn about_joins()
    ensures joined_reads { JoinedReads }
    ensures joined_box { JoinedBox }
    ensures joined_accepted { JoinedAccepted }
    ensures joined_runs { JoinedRuns }
    ensures joined_explained { JoiningAnswered }
    ensures joined_length { JoinedLength }
    ensures joined_room { JoinedRoom }
{}
