//! Steps, one after the other, each of which goes on with a value or ends with a refusal, and lemmas on them. There is no code.
#![tactic(auto)]
