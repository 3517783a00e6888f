//! What operators compute on whole lists, with laws. There is no code.
#![tactic(auto)]
