//! The laws of texts of queries. Each call does nothing: its contract is the law.

ghost use Rattle.std.specs.Prelude.{ℕ, List};
ghost use Rattle.definitions_queries.specs.Grammar.{Spells, SpellsAll};
ghost use Rattle.definitions_queries.specs.Places.{PlacesRise};
ghost use Rattle.definitions_queries.specs.Texts.{HasOneOutcome};

/// A text of any length says just one query, or has just one refusal, and never both. The same holds of lists of queries.
pub fn one_outcome()
    ensures query { (text : List ℕ) → HasOneOutcome Spells text }
    ensures queries { (text : List ℕ) → HasOneOutcome SpellsAll text }
{}

/// In a text of any length the tokens stand one behind the other, then the lexical error, if there is one, and then the end. So the refusal
/// that is answered is the one with the least place.
pub fn places_rise()
    ensures { PlacesRise }
{}
