//! The planner: it appends operators, and numbers their outputs as they are made.

ghost use Rattle.std.specs.Prelude.{◌≡◌, ◌≤◌, ◌*◌, sum_by, ℕ, ◌+◌, ◌^◌, ◌<◌, List, map, drop, length, OnOk, IfOk, Option, Some, None, option_map};
ghost use Rattle.definitions_queries.specs.Queries.{equal};
ghost use Rattle.query_text.specs.Views.{literal_view, test_view};
ghost use Rattle.query_bind.specs.Views.{tested_view};
ghost use Rattle.plan_core.specs.Plans as plans;
ghost use Rattle.plan_core.specs.Planner.{no_steps, with_one, with_two, add_values, add_places, add_selects, add_unions, add_condition, add_conditions, combine, conditions_on};
ghost use Rattle.plan_core.specs.WholePlan.{grouping};
ghost use Rattle.plan_core.specs.Sizes.{size_of};
ghost use Rattle.plan_core.specs.Views.{made_of, listed_of, read_of, plan_view, grouped_view};

use crate::plans::{Grouped, Input, Operator, Plan, SumPlace};
use catalog_core::ColumnId;
use query_bind::Condition;
use query_text::{Literal, Test};
use std::alloc::{AllocError, Global};
use std::marker::Model;
use stream_core::List;

/// A plan so far.
#[derive(Drop)]
pub struct Planner {
    operators: Vec<Operator>,
    columns: u32,
}

impl Model for Planner {
    ghost use Rattle.std.specs.Prelude.{◌<◌, ◌^◌};
    ghost use Rattle.plan_core.specs.Plans.{Steps};
    ghost use Rattle.plan_core.specs.Views.{steps_view};

    ghost Value = { Steps };

    ghost view = { λ planner. steps_view planner.operators.items planner.columns };

    ghost invariant = { λ planner. planner.columns < 2 ^ 32 };
}

impl Planner {
    pub fn new(alloc: Global) -> Planner
        ensures { result ≡ no_steps }
    {
        Planner {
            operators: Vec::new(alloc),
            columns: 0,
        }
    }

    /// The number of the next output.
    fn next(&self) -> u32
        requires { self.now.columns + 1 < 2 ^ 32 }
        ensures { result ≡ self.now.columns + 1 }
    {
        self.columns + 1
    }

    fn select(&mut self, input: ColumnId, test: Test) -> Result<u32, AllocError>
        requires room { self.old.columns + 1 < 2 ^ 32 }
        ensures steps { OnOk result (self.new ≡ with_one self.old (plans.select input (test_view test))) }
        ensures out { IfOk result (λ out. out ≡ self.old.columns + 1) }
    {
        let out = self.next();
        self.operators.push(Operator::Select { input, test, out })?;
        self.columns = out;
        Ok(out)
    }

    fn union(&mut self, left: u32, right: u32) -> Result<u32, AllocError>
        requires room { self.old.columns + 1 < 2 ^ 32 }
        ensures steps { OnOk result (self.new ≡ with_one self.old (plans.union left right)) }
        ensures out { IfOk result (λ out. out ≡ self.old.columns + 1) }
    {
        let out = self.next();
        self.operators.push(Operator::Union { left, right, out })?;
        self.columns = out;
        Ok(out)
    }

    fn intersect(&mut self, left: u32, right: u32) -> Result<u32, AllocError>
        requires room { self.old.columns + 1 < 2 ^ 32 }
        ensures steps { OnOk result (self.new ≡ with_one self.old (plans.intersect left right)) }
        ensures out { IfOk result (λ out. out ≡ self.old.columns + 1) }
    {
        let out = self.next();
        self.operators
            .push(Operator::Intersect { left, right, out })?;
        self.columns = out;
        Ok(out)
    }

    /// A Select for each literal.
    fn selects(
        &mut self,
        alloc: Global,
        column: ColumnId,
        literals: &[Literal],
    ) -> Result<(), AllocError>
        requires room { self.old.columns + length literals.now < 2 ^ 32 }
        ensures steps { OnOk result (self.new ≡ add_selects self.old column (map (λ literal. equal (literal_view literal)) literals.now)) }
        ensures columns { OnOk result (self.new.columns ≡ self.old.columns + length literals.now) }
    {
        for literal in literals {
            self.select(column, Test::Equal(literal.copied(alloc)?))?;
        }
        Ok(())
    }

    /// Unions from the left, of the list with that number and one more for each further literal.
    fn unions(&mut self, first: u32, further: &[Literal]) -> Result<u32, AllocError>
        requires first { first ≤ self.old.columns }
        requires room { self.old.columns + length further.now < 2 ^ 32 }
        ensures made { IfOk result (λ number. made_of self.new number ≡ add_unions self.old first (first + 1) (map (λ literal. equal (literal_view literal)) further.now)) }
        ensures columns { OnOk result (self.new.columns ≡ self.old.columns + length further.now) }
    {
        let mut running = first;
        let mut next = first;
        for _literal in further {
            next += 1;
            running = self.union(running, next)?;
        }
        Ok(running)
    }

    /// The list of a choice of literals: a Select for each, and then Unions from the left.
    fn choice(
        &mut self,
        alloc: Global,
        column: ColumnId,
        literals: &[Literal],
    ) -> Result<u32, AllocError>
        requires room { self.old.columns + (2 + 2 * length literals.now) < 2 ^ 32 }
        ensures made { IfOk result (λ number. made_of self.new number ≡ add_unions (add_selects self.old column (map (λ literal. equal (literal_view literal)) literals.now)) (self.old.columns + 1) (self.old.columns + 2) (drop 1 (map (λ literal. equal (literal_view literal)) literals.now))) }
        ensures columns { OnOk result (self.new.columns ≤ self.old.columns + (1 + 2 * length literals.now)) }
    {
        let first = self.next();
        self.selects(alloc, column, literals)?;
        match literals.split_first() {
            Some((_, further)) => self.unions(first, further),
            None => Ok(first),
        }
    }

    /// The list of one condition.
    fn condition(&mut self, alloc: Global, condition: &Condition) -> Result<u32, AllocError>
        requires room { self.old.columns + size_of condition.now < 2 ^ 32 }
        ensures made { IfOk result (λ number. made_of self.new number ≡ add_condition self.old (tested_view condition.now)) }
        ensures columns { OnOk result (self.new.columns + 1 ≤ self.old.columns + size_of condition.now) }
    {
        match &condition.test {
            Test::OneOf(literals) => self.choice(alloc, condition.column, literals.as_slice()),
            test => self.select(condition.column, test.copied(alloc)?),
        }
    }

    /// The list of a table's conditions, none where it has none.
    pub fn condition_list(
        &mut self,
        alloc: Global,
        table: u32,
        conditions: &[Condition],
    ) -> Result<Option<u32>, AllocError>
        requires room { self.old.columns + sum_by size_of conditions.now < 2 ^ 32 }
        ensures list { IfOk result (λ list. listed_of self.new list ≡ add_conditions (listed_of self.old None) (conditions_on table (map tested_view conditions.now))) }
        ensures columns { OnOk result (self.new.columns ≤ self.old.columns + sum_by size_of conditions.now) }
    {
        let mut running = None;
        for condition in conditions {
            if condition.column.table == table {
                let new = self.condition(alloc, condition)?;
                running = Some(self.combine(running, new)?);
            }
        }
        Ok(running)
    }

    /// A running list combined with a new one.
    pub fn combine(&mut self, running: Option<u32>, new: u32) -> Result<u32, AllocError>
        requires room { self.old.columns + 1 < 2 ^ 32 }
        ensures list { IfOk result (λ list. listed_of self.new (Some list) ≡ combine running (made_of self.old new)) }
        ensures columns { OnOk result (self.new.columns ≤ self.old.columns + 1) }
    {
        match running {
            Some(list) => self.intersect(list, new),
            None => Ok(new),
        }
    }

    pub fn project(&mut self, values: Input, places: u32) -> Result<u32, AllocError>
        requires room { self.old.columns + 1 < 2 ^ 32 }
        ensures steps { OnOk result (self.new ≡ with_one self.old (plans.project values places)) }
        ensures out { IfOk result (λ out. out ≡ self.old.columns + 1) }
    {
        let out = self.next();
        self.operators.push(Operator::Project {
            values,
            places,
            out,
        })?;
        self.columns = out;
        Ok(out)
    }

    pub fn semi_join(&mut self, probe: ColumnId, keys: Input) -> Result<u32, AllocError>
        requires room { self.old.columns + 1 < 2 ^ 32 }
        ensures steps { OnOk result (self.new ≡ with_one self.old (plans.semi_join probe keys)) }
        ensures out { IfOk result (λ out. out ≡ self.old.columns + 1) }
    {
        let out = self.next();
        self.operators
            .push(Operator::SemiJoin { probe, keys, out })?;
        self.columns = out;
        Ok(out)
    }

    /// A Join; the number of its first output, which the second follows.
    pub fn join(&mut self, probe: Input, keys: Input) -> Result<(u32, u32), AllocError>
        requires room { self.old.columns + 2 < 2 ^ 32 }
        ensures steps { OnOk result (self.new ≡ with_two self.old (plans.join probe keys)) }
        ensures out { IfOk result (λ outs. (outs.0 ≡ self.old.columns + 1) × (outs.1 ≡ self.old.columns + 2)) }
    {
        let left = self.next();
        let right = left + 1;
        self.operators.push(Operator::Join {
            probe,
            keys,
            left,
            right,
        })?;
        self.columns = right;
        Ok((left, right))
    }

    /// A base column's values at a position list.
    pub fn values(&mut self, id: ColumnId, list: Option<u32>) -> Result<Input, AllocError>
        requires room { self.old.columns + 1 < 2 ^ 32 }
        ensures made { IfOk result (λ input. read_of self.new input ≡ add_values self.old id list) }
        ensures columns { OnOk result (self.new.columns ≤ self.old.columns + 1) }
    {
        match list {
            Some(list) => Ok(Input::Made(self.project(Input::Base(id), list)?)),
            None => Ok(Input::Base(id)),
        }
    }

    /// A position list at places of it.
    pub fn places(&mut self, list: Option<u32>, at: u32) -> Result<u32, AllocError>
        requires room { self.old.columns + 1 < 2 ^ 32 }
        ensures made { IfOk result (λ number. made_of self.new number ≡ add_places self.old list at) }
        ensures columns { OnOk result (self.new.columns ≤ self.old.columns + 1) }
    {
        match list {
            Some(list) => self.project(Input::Made(list), at),
            None => Ok(at),
        }
    }

    /// Group, or Refine of the groups before; the numbers of its ids and extents.
    pub fn group(&mut self, last: Option<Grouped>, values: Input) -> Result<Grouped, AllocError>
        requires room { self.old.columns + 2 < 2 ^ 32 }
        ensures steps { OnOk result (self.new ≡ with_two self.old (grouping (option_map grouped_view last) values)) }
        ensures out { IfOk result (λ outs. (outs.ids ≡ self.old.columns + 1) × (outs.extents ≡ self.old.columns + 2)) }
    {
        let ids = self.next();
        let extents = ids + 1;
        let operator = match last {
            Some(last) => Operator::Refine {
                before: last.ids,
                values,
                ids,
                extents,
            },
            None => Operator::Group {
                values,
                ids,
                extents,
            },
        };
        self.operators.push(operator)?;
        self.columns = extents;
        Ok(Grouped { ids, extents })
    }

    pub fn sum(
        &mut self,
        values: Input,
        ids: Option<u32>,
        sum: u32,
        operand: u32,
    ) -> Result<u32, AllocError>
        requires room { self.old.columns + 1 < 2 ^ 32 }
        ensures steps { OnOk result (self.new ≡ with_one self.old (λ out. plans.sum values ids out sum operand)) }
        ensures out { IfOk result (λ out. out ≡ self.old.columns + 1) }
    {
        let out = self.next();
        self.operators.push(Operator::Sum {
            values,
            ids,
            out,
            sum,
            operand,
        })?;
        self.columns = out;
        Ok(out)
    }

    pub fn sum_product(
        &mut self,
        first: Input,
        second: Input,
        ids: Option<u32>,
        sum: u32,
    ) -> Result<u32, AllocError>
        requires room { self.old.columns + 1 < 2 ^ 32 }
        ensures steps { OnOk result (self.new ≡ with_one self.old (λ out. plans.sum_product first second ids out sum)) }
        ensures out { IfOk result (λ out. out ≡ self.old.columns + 1) }
    {
        let out = self.next();
        self.operators.push(Operator::SumProduct {
            first,
            second,
            ids,
            out,
            sum,
        })?;
        self.columns = out;
        Ok(out)
    }

    /// The plan, with the columns of its keys and sums.
    pub fn finish(self, keys: Vec<u32>, sums: Vec<SumPlace>) -> Plan
        ensures { plan_view result ≡ record { operators = self.operators; columns = self.columns; keys = keys.items; sums = sums.items } }
    {
        let Planner { operators, columns } = self;
        Plan {
            operators: List::from_vec(operators),
            columns,
            keys: List::from_vec(keys),
            sums: List::from_vec(sums),
        }
    }
}
