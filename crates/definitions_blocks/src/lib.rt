//! What a full block is in each format: words, packing, differences, runs and encodings, with their laws. There is no code.
#![tactic(auto)]
