//! The conditions of a query: joins of dimensions to the fact table, and tests of columns.

ghost use Rattle.std.specs.Prelude.{◌≡◌, ◌≢◌, ◌∷◌, [], not, slice_index_or, Ok, Err, IfErr, OnOk};
ghost use Rattle.std.specs.List.{position};
ghost use Rattle.definitions_outcomes.specs.Computed.{Answers};
ghost use Rattle.query_text.specs.Views.{word_view, literal_view, test_view, condition_view, conditions_view};
ghost use Rattle.query_bind.specs.Binding.{can_join, join_of, is_joined, join_in, fits, misfit, test_in, next_condition, conditions_of};
ghost use Rattle.query_bind.specs.Steps.{AnswersAs};
ghost use Rattle.query_bind.specs.Views.{tested_view, parted_view};

use crate::bounds::{Condition, JoinTo};
use crate::column_index::ColumnIndex;
use crate::errors::BindError;
use catalog_core::{ColumnId, Kind};
use query_text::{Literal, QueryCondition, Test, Word};
use std::alloc::Global;

/// The joins and the tests of a query, each in the order of WHERE.
#[derive(Drop)]
pub struct Conditions {
    pub joins: Vec<JoinTo>,
    pub tests: Vec<Condition>,
}

fn can_join(index: &ColumnIndex, fact: u32, from: ColumnId, key: ColumnId) -> bool
    ensures { result ≡ can_join index.now fact from key }
{
    from.table == fact && index.kind_of(from) == Kind::Number && index.is_key(key)
}

/// The join of two columns, written either way round.
fn join_of(index: &ColumnIndex, fact: u32, left: ColumnId, right: ColumnId) -> Option<JoinTo>
    ensures { result ≡ join_of index.now fact left right }
{
    if can_join(index, fact, left, right) {
        return Some(JoinTo {
            fact_column: left,
            key: right,
        });
    }
    if can_join(index, fact, right, left) {
        return Some(JoinTo {
            fact_column: right,
            key: left,
        });
    }
    None
}

/// Whether one of the joins is to this dimension. There are fewer than 64.
fn is_joined(joins: &[JoinTo], table: u32) -> bool
    ensures { result ≡ is_joined joins.now table }
{
    joins.iter().any(|to| to.key.table == table)
}

fn join_in(
    index: &ColumnIndex,
    fact: u32,
    earlier: &[JoinTo],
    left: &Word,
    right: &Word,
) -> Result<JoinTo, BindError>
    ensures { Answers BindError.Memory (join_in index.now fact earlier.now (word_view left.now) (word_view right.now)) result }
{
    let Some(to) = join_of(index, fact, index.column_of(left), index.column_of(right)) else {
        return Err(BindError::JoinShape { at: left.at });
    };
    if is_joined(earlier, to.key.table) {
        return Err(BindError::JoinTwice { at: left.at });
    }
    Ok(to)
}

fn fits(kind: Kind, literal: &Literal) -> bool
    ensures { result ≡ fits kind (literal_view literal.now) }
{
    match (kind, literal) {
        (Kind::Number, Literal::Number(_)) => true,
        (Kind::Number, Literal::Text(_)) => false,
        (Kind::Text, Literal::Number(_)) => false,
        (Kind::Text, Literal::Text(_)) => true,
    }
}

/// The place of the first literal of the other kind.
fn first_misfit(kind: Kind, literals: &[Literal]) -> Option<usize>
    ensures { result ≡ position (λ literal. not (fits kind (literal_view literal))) literals.now }
{
    literals.iter().position(|literal| !fits(kind, literal))
}

fn one_misfit(kind: Kind, literal: &Literal) -> Option<usize>
    ensures { result ≡ position (λ literal. not (fits kind literal)) (literal_view literal.now ∷ []) }
{
    if fits(kind, literal) { None } else { Some(0) }
}

fn misfit(kind: Kind, test: &Test) -> Option<usize>
    ensures { result ≡ misfit kind (test_view test.now) }
{
    match test {
        Test::Equal(value) => one_misfit(kind, value),
        Test::Below(value) => one_misfit(kind, value),
        Test::AtMost(value) => one_misfit(kind, value),
        Test::Above(value) => one_misfit(kind, value),
        Test::AtLeast(value) => one_misfit(kind, value),
        Test::Between(low, high) => {
            if fits(kind, low) {
                if fits(kind, high) { None } else { Some(1) }
            } else {
                Some(0)
            }
        }
        Test::OneOf(values) => first_misfit(kind, values.as_slice()),
    }
}

/// The place of a literal in the text.
fn place_at(places: &[u64], number: usize) -> u64
    ensures { result ≡ slice_index_or places.now number 0 }
{
    match places.get(number) {
        Some(at) => *at,
        None => 0,
    }
}

fn test_in(
    alloc: Global,
    index: &ColumnIndex,
    word: &Word,
    test: &Test,
    places: &[u64],
) -> Result<Condition, BindError>
    ensures { AnswersAs tested_view (test_in index.now (word_view word.now) (test_view test.now) places.now) result }
{
    let column = index.column_of(word);
    match misfit(index.kind_of(column), test) {
        Some(number) => Err(BindError::TypeMismatch {
            at: place_at(places, number),
        }),
        None => Ok(Condition {
            column,
            test: test.copied(alloc)?,
        }),
    }
}

/// Adds a condition to those before it.
fn push_condition(
    alloc: Global,
    index: &ColumnIndex,
    fact: u32,
    earlier: &mut Conditions,
    condition: &QueryCondition,
) -> Result<(), BindError>
    ensures next { OnOk result (next_condition index.now fact (parted_view earlier.old) (condition_view condition.now) ≡ Ok (parted_view earlier.new)) }
    ensures refused { IfErr result (λ error. error ≢ BindError.Memory → next_condition index.now fact (parted_view earlier.old) (condition_view condition.now) ≡ Err error) }
{
    match condition {
        QueryCondition::Join { left, right } => {
            let to = join_in(index, fact, earlier.joins.as_slice(), left, right)?;
            earlier.joins.push(to)?;
        }
        QueryCondition::Compare {
            column,
            test,
            places,
        } => {
            let tested = test_in(alloc, index, column, test, places.as_slice())?;
            earlier.tests.push(tested)?;
        }
    }
    Ok(())
}

/// The conditions of a query.
pub fn conditions_of(
    alloc: Global,
    index: &ColumnIndex,
    fact: u32,
    conditions: &[QueryCondition],
) -> Result<Conditions, BindError>
    ensures { AnswersAs parted_view (conditions_of index.now fact (conditions_view conditions.now)) result }
{
    let mut sorted = Conditions {
        joins: Vec::new(alloc),
        tests: Vec::new(alloc),
    };
    for condition in conditions {
        push_condition(alloc, index, fact, &mut sorted, condition)?;
    }
    Ok(sorted)
}
