//! What a query's text says, and where a text that is none is refused. There is no code.
#![tactic(auto)]
