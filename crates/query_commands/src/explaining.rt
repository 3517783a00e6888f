//! The answer to `explain`: the text is read and judged first, then the schema is loaded, and the query is bound to it and planned.

ghost use Rattle.std.specs.Prelude.{◌≡◌, ℕ, List as Items, Some, Ok, IfOk};
ghost use Rattle.stream_core.specs.Files.{Files};
ghost use Rattle.catalog_core.specs.LawfulSchemas.{IsSchema};
ghost use Rattle.query_text.specs.Views.{query_view};
ghost use Rattle.query_bind.specs.Binding.{bound_of};
ghost use Rattle.query_bind.specs.LawfulBindings.{IsBinding};
ghost use Rattle.query_bind.specs.Views.{bound_view};
ghost use Rattle.table_commands.specs.Stops.{Computes, EndsAs, KeepsStore, KeepsBoth, IsInner};
ghost use Rattle.query_commands.specs.Asked.{IsAsked};
ghost use Rattle.query_commands.specs.Explaining.{with_line, plan_lines, SaysNoQuery, ExplainIn, ExplainOf, ExplainReply};

use crate::texts::query_of;
use catalog_core::Schema;
use plan_core::{explain, plan_of};
use query_bind::{BindError, Bound, bind};
use query_text::Query;
use std::alloc::Global;
use stream_core::{Bytes, Source, Store};
use table_commands::{Refusal, Stop, schema_of};

/// The query, bound to the schema.
fn bound_to(alloc: Global, schema: &Schema, query: &Query) -> Result<Bound, Stop>
    requires lawful { IsSchema schema.now }
    requires asked { IsAsked (query_view query.now) }
    ensures step { Computes bound_view result (with_line (bound_of schema.now (query_view query.now))) }
    ensures lawful { IfOk result (λ bound. IsBinding schema.now (bound_view bound)) }
    ensures kept { IsInner result }
{
    match bind(alloc, query, schema) {
        Ok(bound) => Ok(bound),
        Err(BindError::Memory) => Err(Stop::Memory),
        Err(error) => Err(Stop::Refused(Refusal::Binding(error))),
    }
}

/// The lines of the bound query's plan.
fn lines_of(alloc: Global, schema: &Schema, bound: &Bound) -> Result<Bytes, Stop>
    requires lawful { IsSchema schema.now }
    requires binding { IsBinding schema.now (bound_view bound.now) }
    ensures step { Computes (λ (lines : Items ℕ). lines) result (Ok (plan_lines schema.now (bound_view bound.now))) }
    ensures kept { IsInner result }
{
    let plan = plan_of(alloc, bound, schema)?;
    Ok(explain(alloc, &plan, schema)?)
}

/// The lines of the query's plan over the schema.
fn explain_in(alloc: Global, schema: &Schema, query: &Query) -> Result<Bytes, Stop>
    requires lawful { IsSchema schema.now }
    requires asked { IsAsked (query_view query.now) }
    ensures step { EndsAs result (ExplainIn (query_view query.now) schema.now) }
    ensures kept { IsInner result }
{
    let bound = bound_to(alloc, schema, query)?;
    lines_of(alloc, schema, &bound)
}

/// The lines of the query's plan over the schema of the database.
fn explain_of<S: Store>(alloc: Global, store: &mut S, query: &Query) -> Result<Bytes, Stop>
    requires { IsAsked (query_view query.now) }
    ensures step { (files : Files) → S.files store.old ≡ Some files → EndsAs result (ExplainOf files (query_view query.now)) }
    ensures kept { KeepsStore (S.files store.old) (S.files store.new) (S.faults store.old) (S.faults store.new) result }
{
    let schema = schema_of(alloc, store)?;
    explain_in(alloc, &schema, query)
}

/// The answer to `explain`. Of the store the schema file alone is loaded, and only for a text that says a query.
pub fn explain_answer<S: Store, I: Source>(
    alloc: Global,
    store: &mut S,
    input: &mut I,
) -> Result<Bytes, Stop>
    ensures step { (files : Files) (text : Items ℕ) → S.files store.old ≡ Some files → I.left input.old ≡ Some text → EndsAs result (ExplainReply files text) }
    ensures kept { KeepsBoth (S.files store.old) (S.files store.new) (S.faults store.old) (S.faults store.new) (I.left input.new) (I.faults input.old) (I.faults input.new) result }
    // No load is made for a text that is refused, so none fails.
    ensures unasked { (text : Items ℕ) → I.left input.old ≡ Some text → SaysNoQuery text → S.faults store.new ≡ S.faults store.old }
{
    let query = query_of(alloc, input)?;
    explain_of(alloc, store, &query)
}
