//! The law of plans. The calls do nothing: their contracts are the law.

ghost use Rattle.catalog_core.specs.declared.schemas.Schema.{Schema};
ghost use Rattle.query_bind.specs.Binding.{Binding};
ghost use Rattle.plan_meaning.specs.Law.{PlanMeansQuery, PlanFits, GroupsAreDistinct};
ghost use Rattle.plan_meaning.specs.Shapes.{PlanIsOrderly};

/// The columns `keys` of a plan, side by side, are the groups of the joined rows by first occurrence, and the columns `sums` are the sums of
/// these groups. Each operator has what it needs, up to the first Join that is too large.
pub fn plan_means_query()
    ensures { (schema : Schema) (binding : Binding) → PlanMeansQuery schema binding }
{}

/// The shape of a plan: which base columns it reads, how its columns are numbered, where its keys and sums stand, and that no Join comes after a
/// sum.
pub fn plan_is_orderly()
    ensures { (schema : Schema) (binding : Binding) → PlanIsOrderly schema binding }
{}

/// If no dimension's keys may repeat, no Join of a plan is too large.
pub fn plan_fits()
    ensures { (schema : Schema) (binding : Binding) → PlanFits schema binding }
{}

/// No two groups are equal, each row has its own group, and groups stand as they first occur.
pub fn groups_are_distinct()
    ensures { GroupsAreDistinct }
{}
