//! The law of strategies. The call does nothing: its contract is the law.

ghost use Rattle.plan_core.specs.Strategies.{OneStrategy};

/// The text of a strategy file has one outcome at most for each plan: a strategy, or its first refusal.
pub fn one_strategy()
    ensures { OneStrategy }
{}
