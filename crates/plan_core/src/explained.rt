//! The lines in which a plan is explained.

ghost use Rattle.std.specs.Prelude.{◌≡◌, ◌++◌, codes, decimal, option_copied, IfOk, OnOk, map};
ghost use Rattle.catalog_core.specs.Columns.{column_at};
ghost use Rattle.query_bind.specs.Binding.{column_name};
ghost use Rattle.query_text.specs.Views.{literal_view, test_view};
ghost use Rattle.plan_core.specs.Explained.{made, input_text, doubled, literal_text, test_text, ids_text, operator_text, operator_line, lines_from, plan_text};
ghost use Rattle.plan_core.specs.Views.{operator_view, plan_view};

use crate::plans::{Input, Operator, Plan};
use catalog_core::{ColumnDef, ColumnId, Schema};
use itoa::Buffer;
use query_text::{Literal, Test};
use std::alloc::{AllocError, Global};
use stream_core::{Bytes, List};

fn push_number(text: &mut Vec<u8>, number: u64) -> Result<(), AllocError>
    ensures { OnOk result (text.new.items ≡ text.old.items ++ decimal number) }
{
    let mut buffer = Buffer::new();
    text.extend_from_slice(buffer.format(number).as_bytes())
}

fn push_word(text: &mut Vec<u8>, word: &str) -> Result<(), AllocError>
    ensures { OnOk result (text.new.items ≡ text.old.items ++ word.now) }
{
    text.extend_from_slice(word.as_bytes())
}

/// Adds a column that an operator makes.
fn push_made(text: &mut Vec<u8>, number: u32) -> Result<(), AllocError>
    ensures { OnOk result (text.new.items ≡ text.old.items ++ made number) }
{
    push_word(text, "c")?;
    push_number(text, u64::from(number))
}

/// A column of the schema.
fn definition(schema: &Schema, id: ColumnId) -> Option<&ColumnDef>
    ensures { option_copied result ≡ column_at schema.now id }
{
    let table = schema.tables.as_slice().get(id.table as usize)?;
    table.columns.as_slice().get(id.column as usize)
}

fn push_name(text: &mut Vec<u8>, schema: &Schema, id: ColumnId) -> Result<(), AllocError>
    ensures { OnOk result (text.new.items ≡ text.old.items ++ column_name schema.now id) }
{
    match definition(schema, id) {
        Some(column) => push_word(text, column.name.as_str()),
        None => Ok(()),
    }
}

fn push_input(text: &mut Vec<u8>, schema: &Schema, input: Input) -> Result<(), AllocError>
    ensures { OnOk result (text.new.items ≡ text.old.items ++ input_text schema.now input) }
{
    match input {
        Input::Base(id) => push_name(text, schema, id),
        Input::Made(number) => push_made(text, number),
    }
}

/// Adds bytes, with each quote twice.
fn push_doubled(text: &mut Vec<u8>, bytes: &[u8]) -> Result<(), AllocError>
    ensures { OnOk result (text.new.items ≡ text.old.items ++ doubled bytes.now) }
{
    for byte in bytes {
        if *byte == b'\'' {
            text.extend_from_slice(b"''")?;
        } else {
            text.push(*byte)?;
        }
    }
    Ok(())
}

fn push_literal(text: &mut Vec<u8>, literal: &Literal) -> Result<(), AllocError>
    ensures { OnOk result (text.new.items ≡ text.old.items ++ literal_text (literal_view literal.now)) }
{
    match literal {
        Literal::Number(value) => push_number(text, *value),
        Literal::Text(bytes) => {
            push_word(text, "'")?;
            push_doubled(text, bytes.as_slice())?;
            push_word(text, "'")
        }
    }
}

/// Adds a sign and a literal.
fn push_sign(text: &mut Vec<u8>, sign: &str, literal: &Literal) -> Result<(), AllocError>
    ensures { OnOk result (text.new.items ≡ text.old.items ++ (sign.now ++ literal_text (literal_view literal.now))) }
{
    push_word(text, sign)?;
    push_literal(text, literal)
}

fn push_test(text: &mut Vec<u8>, test: &Test) -> Result<(), AllocError>
    ensures { OnOk result (text.new.items ≡ text.old.items ++ test_text (test_view test.now)) }
{
    match test {
        Test::Equal(literal) => push_sign(text, " = ", literal),
        Test::Below(literal) => push_sign(text, " < ", literal),
        Test::AtMost(literal) => push_sign(text, " <= ", literal),
        Test::Above(literal) => push_sign(text, " > ", literal),
        Test::AtLeast(literal) => push_sign(text, " >= ", literal),
        Test::Between(low, high) => {
            push_sign(text, " between ", low)?;
            push_sign(text, " and ", high)
        }
        Test::OneOf(_) => Ok(()),
    }
}

/// Adds the ids that a sum goes by.
fn push_ids(text: &mut Vec<u8>, ids: Option<u32>) -> Result<(), AllocError>
    ensures { OnOk result (text.new.items ≡ text.old.items ++ ids_text ids) }
{
    match ids {
        Some(ids) => {
            push_word(text, " by ")?;
            push_made(text, ids)
        }
        None => Ok(()),
    }
}

/// Adds an output, and the word of the operator that makes it.
fn push_out(text: &mut Vec<u8>, out: u32, word: &str) -> Result<(), AllocError>
    ensures { OnOk result (text.new.items ≡ text.old.items ++ (made out ++ word.now)) }
{
    push_made(text, out)?;
    push_word(text, word)
}

/// Adds two outputs, and the word of the operator that makes them.
fn push_outs(text: &mut Vec<u8>, first: u32, second: u32, word: &str) -> Result<(), AllocError>
    ensures { OnOk result (text.new.items ≡ text.old.items ++ (made first ++ codes " " ++ made second ++ word.now)) }
{
    push_out(text, first, " ")?;
    push_out(text, second, word)
}

/// Adds two lists that operators make.
fn push_lists(text: &mut Vec<u8>, left: u32, right: u32) -> Result<(), AllocError>
    ensures { OnOk result (text.new.items ≡ text.old.items ++ (made left ++ codes " " ++ made right)) }
{
    push_out(text, left, " ")?;
    push_made(text, right)
}

/// Adds two operands.
fn push_inputs(
    text: &mut Vec<u8>,
    schema: &Schema,
    first: Input,
    second: Input,
) -> Result<(), AllocError>
    ensures { OnOk result (text.new.items ≡ text.old.items ++ (input_text schema.now first ++ codes " " ++ input_text schema.now second)) }
{
    push_input(text, schema, first)?;
    push_word(text, " ")?;
    push_input(text, schema, second)
}

/// Adds an output, its operator's word, and two lists that operators make.
fn push_over_lists(
    text: &mut Vec<u8>,
    out: u32,
    word: &str,
    left: u32,
    right: u32,
) -> Result<(), AllocError>
    ensures { OnOk result (text.new.items ≡ text.old.items ++ (made out ++ word.now ++ made left ++ codes " " ++ made right)) }
{
    push_out(text, out, word)?;
    push_lists(text, left, right)
}

/// Adds an output, its operator's word, and two operands.
fn push_over_inputs(
    text: &mut Vec<u8>,
    schema: &Schema,
    out: u32,
    word: &str,
    first: Input,
    second: Input,
) -> Result<(), AllocError>
    ensures { OnOk result (text.new.items ≡ text.old.items ++ (made out ++ word.now ++ input_text schema.now first ++ codes " " ++ input_text schema.now second)) }
{
    push_out(text, out, word)?;
    push_inputs(text, schema, first, second)
}

fn push_operator(text: &mut Vec<u8>, schema: &Schema, operator: &Operator) -> Result<(), AllocError>
    ensures { OnOk result (text.new.items ≡ text.old.items ++ operator_text schema.now (operator_view operator.now)) }
{
    match operator {
        Operator::Select { input, test, out } => {
            push_out(text, *out, " = select ")?;
            push_name(text, schema, *input)?;
            push_test(text, test)
        }
        Operator::Union { left, right, out } => {
            push_over_lists(text, *out, " = union ", *left, *right)
        }
        Operator::Intersect { left, right, out } => {
            push_over_lists(text, *out, " = intersect ", *left, *right)
        }
        Operator::Project {
            values,
            places,
            out,
        } => {
            push_over_inputs(
                text,
                schema,
                *out,
                " = project ",
                *values,
                Input::Made(*places),
            )
        }
        Operator::SemiJoin { probe, keys, out } => {
            push_over_inputs(
                text,
                schema,
                *out,
                " = semijoin ",
                Input::Base(*probe),
                *keys,
            )
        }
        Operator::Join {
            probe,
            keys,
            left,
            right,
        } => {
            push_outs(text, *left, *right, " = join ")?;
            push_inputs(text, schema, *probe, *keys)
        }
        Operator::Group {
            values,
            ids,
            extents,
        } => {
            push_outs(text, *ids, *extents, " = group ")?;
            push_input(text, schema, *values)
        }
        Operator::Refine {
            before,
            values,
            ids,
            extents,
        } => {
            push_outs(text, *ids, *extents, " = refine ")?;
            push_inputs(text, schema, Input::Made(*before), *values)
        }
        Operator::Sum {
            values,
            ids,
            out,
            ..
        } => {
            push_out(text, *out, " = sum ")?;
            push_input(text, schema, *values)?;
            push_ids(text, *ids)
        }
        Operator::SumProduct {
            first,
            second,
            ids,
            out,
            ..
        } => {
            push_over_inputs(text, schema, *out, " = sumproduct ", *first, *second)?;
            push_ids(text, *ids)
        }
    }
}

/// Adds the line of an operator with its number.
fn push_line(
    text: &mut Vec<u8>,
    schema: &Schema,
    number: u64,
    operator: &Operator,
) -> Result<(), AllocError>
    ensures { OnOk result (text.new.items ≡ text.old.items ++ operator_line schema.now number (operator_view operator.now)) }
{
    push_word(text, "o")?;
    push_number(text, number)?;
    push_word(text, " ")?;
    push_operator(text, schema, operator)?;
    push_word(text, "\n")
}

/// A line for each operator of a plan of a query over this schema, in order: its number after `o`, its outputs, `=`, its name and its
/// operands, as `o6 c6 = semijoin lo_orderdate c2`. A base column is written by its name, a column of the plan by its number after `c`.
/// Behind a sum by groups stands `by` with their ids.
pub fn explain(alloc: Global, plan: &Plan, schema: &Schema) -> Result<Bytes, AllocError>
    ensures { IfOk result (λ text. text ≡ plan_text schema.now (plan_view plan.now)) }
{
    let operators = plan.operators.as_slice();
    let mut text = Vec::new(alloc);
    for place in 0..operators.len() {
        push_line(&mut text, schema, place as u64 + 1, &operators[place])?;
    }
    Ok(List::from_vec(text))
}
