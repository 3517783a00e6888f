//! What a column file is in each format, and the first fault of bytes that are none, with laws. There is no code.
#![tactic(auto)]
