//! The laws of refused queries. The call does nothing: its contract is the law.

ghost use Rattle.query_commands.specs.Explaining.{TextRefusalsAreSaid, BindingRefusalsAreSaid};

/// A refusal says what is wrong: no text and no schema is answered with want of memory.
pub fn query_refusals_are_said()
    ensures text { TextRefusalsAreSaid }
    ensures binding { BindingRefusalsAreSaid }
{}
