//! The law of position lists. The call does nothing: its contract is the law.

ghost use Rattle.definitions_operators.specs.Positions.{OnePositionList};
ghost use Rattle.scan_ops.specs.Laws.{IntersectionsHaveBoth, UnionsHaveEither};

/// A test has one position list. So two operators that give a position list of the same test give the same list.
pub fn one_position_list()
    ensures { OnePositionList }
{}

/// The laws of `intersect`, `union_of` and their fly forms: what they give is told by its members. A call does nothing.
pub fn sets_are_told_by_members()
    ensures intersections { IntersectionsHaveBoth }
    ensures unions { UnionsHaveEither }
{}
