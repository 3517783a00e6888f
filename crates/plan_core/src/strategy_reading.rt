//! The strategy that a text asks for: the top level, then the formats of columns, then the forms of operators, then the operators that do
//! not take their forms.

ghost use Rattle.std.specs.Prelude.{◌≡◌, ◌≢◌, ◌<◌, ◌^◌, ◌∷◌, [], ℕ, codes, decimal, length, map, option_map, IfOk, IfErr, IfSome, IfNone, OnOk, Ok, Err, Some, None, if◌then◌else◌};
ghost use Rattle.stream_core.specs.Names.{is_name};
ghost use Rattle.block_core.specs.declared.formats.Format.TheVariants as format;
ghost use Rattle.block_core.specs.declared.formats.FormatChoice.TheVariants as choice;
ghost use Rattle.catalog_core.specs.Schemas.{meaning, one_of, format_words};
ghost use Rattle.definitions_outcomes.specs.Computed.{and_then, Answers};
ghost use Rattle.toml.specs.Data.{get_member, as_table};
ghost use Rattle.toml.specs.View.{view, table_view};
ghost use Rattle.plan_core.specs.Strategies.{form_words, form_or_fly, in_order, choice_or, unknown, top_rules, keeps, each_keeps, place_named, choice_in, chosen, formats_in, forms_in, each_takes, strategy_in, StrategyOf, IsStrategy};
ghost use Rattle.plan_core.specs.declared.strategies.Form.TheVariants as form;
ghost use Rattle.plan_core.specs.Views.{operator_view, plan_view};

use crate::plans::{Operator, Plan};
use crate::strategies::{Form, Strategy, StrategyError, form_or_fly, takes_form};
use block_core::{Format, FormatChoice};
use itoa::Buffer;
use std::alloc::{AllocError, Global};
use stream_core::{List, Name, is_name};
use toml::{Table, Value};

// ---- what a key is, and what it holds

/// The key as a name, where it has the form of one.
fn name_in(key: &str) -> Option<Name>
    ensures { result ≡ (if is_name key.now then Some key.now else None) }
{
    if is_name(key) { Name::of(key) } else { None }
}

fn unknown(key: &str) -> StrategyError
    ensures { result ≡ unknown key.now }
{
    StrategyError::Unknown { name: name_in(key) }
}

/// The number that is written in decimal digits without leading zeros, from 1 on.
fn number_of(digits: &str) -> Option<u64>
    ensures number { IfSome result (λ number. (0 < number) × (digits.now ≡ decimal number)) }
    ensures small { IfSome result (λ number. number < 2 ^ 64) }
    ensures none { IfNone result ((number : ℕ) → 0 < number → number < 2 ^ 64 → digits.now ≢ decimal number) }
{
    let Ok(number) = digits.parse::<u64>() else {
        return None;
    };
    if number == 0 {
        return None;
    }
    let mut buffer = Buffer::new();
    if buffer.format(number) == digits {
        Some(number)
    } else {
        None
    }
}

/// The place, from 0, of the column or operator that a key names, of so many.
fn place_named(letter: char, count: usize, key: &str) -> Option<usize>
    requires { letter < 128 }
    ensures place { result ≡ place_named (letter ∷ []) count key.now }
    ensures within { IfSome result (λ place. place < count) }
{
    let Some(digits) = key.strip_prefix(letter) else {
        return None;
    };
    let Some(number) = number_of(digits) else {
        return None;
    };
    if number > count as u64 {
        return None;
    }
    Some(number as usize - 1)
}

fn format_in(value: &Value) -> Option<FormatChoice>
    ensures { result ≡ one_of format_words (view value.now) }
{
    match value.as_str()? {
        "plain" => Some(FormatChoice::Fixed(Format::Plain)),
        "static" => Some(FormatChoice::Fixed(Format::Static)),
        "dynamic" => Some(FormatChoice::Fixed(Format::Dynamic)),
        "runs" => Some(FormatChoice::Fixed(Format::Runs)),
        "delta1+dynamic" => Some(FormatChoice::Fixed(Format::Delta1Dynamic)),
        "delta16+dynamic" => Some(FormatChoice::Fixed(Format::Delta16Dynamic)),
        "reference+dynamic" => Some(FormatChoice::Fixed(Format::ReferenceDynamic)),
        "delta1+runs" => Some(FormatChoice::Fixed(Format::Delta1Runs)),
        "auto" => Some(FormatChoice::Auto),
        _ => None,
    }
}

fn form_in(value: &Value) -> Option<Form>
    ensures { result ≡ one_of form_words (view value.now) }
{
    match value.as_str()? {
        "plain" => Some(Form::Plain),
        "fly" => Some(Form::Fly),
        "special" => Some(Form::Special),
        "morph" => Some(Form::Morph),
        _ => None,
    }
}

fn held<'a>(keys: &'a Table, key: &str) -> Option<&'a Value>
    ensures { option_map (λ value. view value.now) result ≡ get_member key.now (table_view keys.entry.now) }
{
    keys.get(key)
}

/// The table under an optional key.
fn table_at<'a>(keys: &'a Table, key: &str) -> Option<&'a Table>
    ensures { option_map (λ table. table_view table.now) result ≡ and_then (get_member key.now (table_view keys.entry.now)) as_table }
{
    held(keys, key)?.as_table()
}

fn default_format(keys: &Table) -> FormatChoice
    ensures { result ≡ choice_or (choice.Fixed format.Plain) format_words (get_member (codes "format") (table_view keys.now)) }
{
    let plain = FormatChoice::Fixed(Format::Plain);
    match held(keys, "format") {
        Some(value) => format_in(value).unwrap_or(plain),
        None => plain,
    }
}

fn default_form(keys: &Table) -> Form
    ensures { result ≡ choice_or form.Fly form_words (get_member (codes "form") (table_view keys.now)) }
{
    match held(keys, "form") {
        Some(value) => form_in(value).unwrap_or(Form::Fly),
        None => Form::Fly,
    }
}

// ---- the top level

/// Whether the key may stand at the top level, and may hold the value.
fn keeps_rule(key: &str, value: &Value) -> bool
    ensures { result ≡ keeps (meaning top_rules key.now) (view value.now) }
{
    match key {
        "format" => format_in(value).is_some(),
        "form" => form_in(value).is_some(),
        "formats" => value.is_table(),
        "forms" => value.is_table(),
        _ => false,
    }
}

fn each_keeps(keys: &Table) -> Result<(), StrategyError>
    ensures { result ≡ each_keeps (in_order (table_view keys.now)) }
{
    for (key, value) in keys.iter() {
        if !keeps_rule(key.as_str(), value) {
            return Err(unknown(key.as_str()));
        }
    }
    Ok(())
}

// ---- the formats of columns

fn format_choice(count: usize, key: &str, value: &Value) -> Option<(usize, FormatChoice)>
    ensures choice { result ≡ choice_in (codes "c") format_words count (key.now, view value.now) }
    ensures within { IfSome result (λ choice. choice.0 < count) }
{
    let place = place_named('c', count, key)?;
    let format = format_in(value)?;
    Some((place, format))
}

/// Puts each format of the table at the place of its column.
fn put_formats(formats: &mut [FormatChoice], table: &Table) -> Result<(), StrategyError>
    ensures formats { OnOk result (chosen (codes "c") format_words (in_order (table_view table.now)) formats.old ≡ Ok formats.new) }
    ensures refused { IfErr result (λ refusal. chosen (codes "c") format_words (in_order (table_view table.now)) formats.old ≡ Err refusal) }
{
    let count = formats.len();
    for (key, value) in table.iter() {
        let Some((place, format)) = format_choice(count, key.as_str(), value) else {
            return Err(unknown(key.as_str()));
        };
        formats[place] = format;
    }
    Ok(())
}

fn formats_in(
    alloc: Global,
    columns: u32,
    keys: &Table,
) -> Result<List<FormatChoice>, StrategyError>
    ensures { Answers StrategyError.Memory (formats_in columns (table_view keys.now)) result }
{
    let mut formats = vec![in alloc; default_format(keys); columns as usize]?;
    if let Some(table) = table_at(keys, "formats") {
        put_formats(formats.as_mut_slice(), table)?;
    }
    Ok(List::from_vec(formats))
}

// ---- the forms of operators

fn form_choice(count: usize, key: &str, value: &Value) -> Option<(usize, Form)>
    ensures choice { result ≡ choice_in (codes "o") form_words count (key.now, view value.now) }
    ensures within { IfSome result (λ choice. choice.0 < count) }
{
    let place = place_named('o', count, key)?;
    let form = form_in(value)?;
    Some((place, form))
}

/// Puts each form of the table at the place of its operator.
fn put_forms(forms: &mut [Form], table: &Table) -> Result<(), StrategyError>
    ensures forms { OnOk result (chosen (codes "o") form_words (in_order (table_view table.now)) forms.old ≡ Ok forms.new) }
    ensures refused { IfErr result (λ refusal. chosen (codes "o") form_words (in_order (table_view table.now)) forms.old ≡ Err refusal) }
{
    let count = forms.len();
    for (key, value) in table.iter() {
        let Some((place, form)) = form_choice(count, key.as_str(), value) else {
            return Err(unknown(key.as_str()));
        };
        forms[place] = form;
    }
    Ok(())
}

/// The default form of each operator.
fn default_forms(
    alloc: Global,
    default: Form,
    operators: &[Operator],
) -> Result<Vec<Form>, AllocError>
    ensures { IfOk result (λ forms. forms.items ≡ map (form_or_fly default) (map operator_view operators.now)) }
{
    let mut forms = Vec::new(alloc);
    for operator in operators {
        forms.push(form_or_fly(default, operator))?;
    }
    Ok(forms)
}

fn forms_in(
    alloc: Global,
    operators: &[Operator],
    keys: &Table,
) -> Result<List<Form>, StrategyError>
    ensures forms { Answers StrategyError.Memory (forms_in (map operator_view operators.now) (table_view keys.now)) result }
    ensures count { IfOk result (λ forms. length forms ≡ length operators.now) }
{
    let mut forms = default_forms(alloc, default_form(keys), operators)?;
    if let Some(table) = table_at(keys, "forms") {
        put_forms(forms.as_mut_slice(), table)?;
    }
    Ok(List::from_vec(forms))
}

/// Whether each operator takes its form. Operators that a `u32` cannot count are taken for more than memory holds.
fn each_takes(operators: &[Operator], forms: &[Form]) -> Result<(), StrategyError>
    requires { length forms.now ≡ length operators.now }
    ensures { Answers StrategyError.Memory (each_takes 1 (map operator_view operators.now) forms.now) result }
{
    if operators.len() > u32::MAX as usize {
        return Err(StrategyError::Memory);
    }
    for place in 0..operators.len() {
        if !takes_form(&operators[place], forms[place]) {
            return Err(StrategyError::NoSpecial {
                operator: place as u32 + 1,
            });
        }
    }
    Ok(())
}

// ---- the strategy

fn strategy_in(alloc: Global, plan: &Plan, keys: &Table) -> Result<Strategy, StrategyError>
    ensures { Answers StrategyError.Memory (strategy_in (plan_view plan.now) (table_view keys.now)) result }
{
    each_keeps(keys)?;
    let formats = formats_in(alloc, plan.columns, keys)?;
    let forms = forms_in(alloc, plan.operators.as_slice(), keys)?;
    each_takes(plan.operators.as_slice(), forms.as_slice())?;
    Ok(Strategy { formats, forms })
}

/// The strategy of a plan that the text of a strategy file asks for, or the first thing that is wrong with it. The text's TOML table is
/// held while it is read. The time is that of reading the table, and that of going over the plan and over the table's keys once.
pub fn read_strategy(alloc: Global, bytes: &[u8], plan: &Plan) -> Result<Strategy, StrategyError>
    ensures strategy { IfOk result (λ strategy. StrategyOf bytes.now (plan_view plan.now) (Ok strategy)) }
    ensures lawful { IfOk result (λ strategy. IsStrategy (plan_view plan.now) strategy) }
    ensures refused { IfErr result (λ refusal. refusal ≢ StrategyError.Memory → StrategyOf bytes.now (plan_view plan.now) (Err refusal)) }
{
    match toml::table_from_slice(alloc, bytes) {
        Ok(keys) => strategy_in(alloc, plan, &keys),
        Err(error) => {
            if error.is_memory() {
                Err(StrategyError::Memory)
            } else {
                Err(StrategyError::Text)
            }
        }
    }
}
