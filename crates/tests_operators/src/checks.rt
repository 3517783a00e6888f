//! What operators ask of lists, tried when a test runs.

ghost use Rattle.std.specs.Prelude.{◌≡◌, ◌<◌, IsTrue, All};
ghost use Rattle.definitions_operators.specs.Positions.{Rises};

/// Whether each number is below the next.
pub fn rises(numbers: &[u64]) -> bool
    ensures { IsTrue result → Rises numbers.now }
{
    for place in 1..numbers.len() {
        if numbers[place - 1] >= numbers[place] {
            return false;
        }
    }
    true
}

/// Whether all numbers are below a limit.
pub fn are_below(numbers: &[u64], limit: u64) -> bool
    ensures { IsTrue result → All (λ number. number < limit) numbers.now }
{
    numbers.iter().all(|number| *number < limit)
}

/// Whether one list is the front of another.
pub fn is_front(front: &[u64], whole: &[u64]) -> bool {
    whole.get(..front.len()) == Some(front)
}
