//! What a full block is measured by, found in one pass.

ghost use Rattle.std.specs.Prelude.{◌≡◌, ◌+◌, ◌^◌, ◌<◌, ◌≤◌, ◌∷◌, [], length, take};
ghost use Rattle.definitions_blocks.specs.Blocks.{block_values};
ghost use Rattle.size_chooser.specs.Surveys.{IsSurveyOf, IsNext};

use block_core::{BLOCK_LEN, words_fit};

/// What was found of values: the bits of the values, of their differences to the value before and of those to the value 16
/// places before; the least and the greatest; the runs of the values, and of their differences to the value before.
#[derive(Clone, Copy)]
pub struct Survey {
    pub all: u64,
    pub steps: u64,
    pub gaps: u64,
    pub low: u64,
    pub high: u64,
    pub runs: u64,
    pub step_runs: u64,
}

impl Survey {
    /// The survey of one value.
    #[inline(always)]
    fn start(first: u64) -> Survey
        ensures { IsSurveyOf result (first ∷ []) }
    {
        Survey {
            all: first,
            steps: 0,
            gaps: 0,
            low: first,
            high: first,
            runs: 1,
            step_runs: 1,
        }
    }

    /// The survey with one more value. The values before it are read anew, so that nothing is carried from one value to the
    /// next, and neighbouring values are surveyed side by side.
    #[inline(always)]
    fn next(self, value: u64, before: u64, twice: u64, earlier: u64) -> Survey
        requires runs { self.runs < 2 ^ 32 }
        requires step_runs { self.step_runs < 2 ^ 32 }
        ensures { IsNext self result value before twice earlier }
    {
        let step = value.wrapping_sub(before);
        Survey {
            all: self.all | value,
            steps: self.steps | step,
            gaps: self.gaps | value.wrapping_sub(earlier),
            low: self.low.min(value),
            high: self.high.max(value),
            runs: self.runs + u64::from(value != before),
            step_runs: self.step_runs + u64::from(step != before.wrapping_sub(twice)),
        }
    }
}

/// The survey of a full block.
pub fn survey_of(values: &[u64]) -> Survey
    requires { length values.now ≡ block_values }
    ensures survey { IsSurveyOf result values.now }
    ensures order { result.low ≤ result.high }
    ensures few_runs { result.runs ≤ block_values }
    ensures few_step_runs { result.step_runs ≤ block_values }
{
    words_fit(values);
    let mut found = survey_front(values);
    for place in 16..BLOCK_LEN {
        found = found.next(
            values[place],
            values[place - 1],
            values[place - 2],
            values[place - 16],
        );
    }
    found
}

/// The survey of the first 16 values.
fn survey_front(values: &[u64]) -> Survey
    requires { 16 ≤ length values.now }
    ensures { IsSurveyOf result (take 16 values.now) }
{
    words_fit(values);
    let base = values[0];
    let mut found = Survey::start(base);
    for place in 1..16 {
        found = found.next(
            values[place],
            values[place - 1],
            values[place.saturating_sub(2)],
            base,
        );
    }
    found
}
