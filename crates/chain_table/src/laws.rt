//! The laws of walks. The call does nothing: its contract is the law.

ghost use Rattle.chain_table.specs.Laws.{WalksMeetEntries, WalksEnd};

/// `Chain::first` gives the newest entry of a key, and `Chain::next_of` the next older one. So the walk from the first on meets just the entries of the
/// key, newest first, and ends.
pub fn walks()
    ensures meet { WalksMeetEntries }
    ensures end { WalksEnd }
{}
