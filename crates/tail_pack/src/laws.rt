//! The laws of tails. Each call does nothing: its contract is the law.

ghost use Rattle.definitions_columns.specs.Tails.{HasTail, OneTail, OneUnpacked, WordTail};

/// Values below 2^width are packed in some way.
pub fn has_tail()
    ensures { HasTail }
{}

/// They are packed in one way only, so tails can be compared in place of lists.
pub fn one_tail()
    ensures { OneTail }
{}

/// Bytes are at most one list of so many values at a width.
pub fn one_unpacked()
    ensures { OneUnpacked }
{}

/// At 64 bits a tail is its words.
pub fn word_tail()
    ensures { WordTail }
{}
