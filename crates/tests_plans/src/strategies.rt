//! What a text says of a plan's strategy, in words.

ghost use Rattle.catalog_core.specs.LawfulSchemas.{IsSchema};

use crate::plans::schema;
use crate::strategy_cases::{CASES, PRODUCTS};
use catalog_core::Schema;
use plan_core::{Plan, Strategy, StrategyError, default_strategy, plan_of, read_strategy};
use query_bind::bind;
use query_text::read_query;
use std::alloc::{AllocError, Global};
use std::process::Abort;
use std::test::Fail;

/// The plan of a text's query, or none if the text is refused.
pub fn plan(alloc: Global, schema: &Schema, text: &[u8]) -> Result<Option<Plan>, AllocError>
    requires { IsSchema schema.now }
{
    if text.len() <= 65_536 {
        if let Ok(query) = read_query(alloc, text) {
            if let Ok(bound) = bind(alloc, &query, schema) {
                return Ok(Some(plan_of(alloc, &bound, schema)?));
            }
        }
    }
    Ok(None)
}

/// The formats and forms that differ from the defaults, as `c2 Auto o1 Special `.
fn changes(alloc: Global, strategy: &Strategy, default: &Strategy) -> Result<String, AllocError> {
    let mut words = String::new(alloc);
    let formats = strategy.formats.as_slice();
    for (place, before) in default.formats.as_slice().iter().enumerate() {
        if let Some(format) = formats.get(place) {
            if format != before {
                words.push_str(format!(in alloc;
                    "c{} {:?} ",
                    place.wrapping_add(1),
                    format
                )?.as_str())?;
            }
        }
    }
    let forms = strategy.forms.as_slice();
    for (place, before) in default.forms.as_slice().iter().enumerate() {
        if let Some(form) = forms.get(place) {
            if form != before {
                words.push_str(format!(in alloc;
                    "o{} {:?} ",
                    place.wrapping_add(1),
                    form
                )?.as_str())?;
            }
        }
    }
    Ok(words)
}

/// The strategy's changes from the defaults, or the refusal.
pub fn outcome(alloc: Global, plan: &Plan, text: &[u8]) -> Result<String, AllocError> {
    match read_strategy(alloc, text, plan) {
        Ok(strategy) => changes(alloc, &strategy, &default_strategy(alloc, plan)?),
        Err(StrategyError::Text) => String::from_str(alloc, "no text"),
        Err(StrategyError::Unknown { name: Some(name) }) => {
            format!(in alloc; "unknown {}", name.as_str())
        }
        Err(StrategyError::Unknown { name: None }) => String::from_str(alloc, "unknown"),
        Err(StrategyError::NoSpecial { operator }) => {
            format!(in alloc; "no special form for o{operator}")
        }
        Err(StrategyError::Memory) => Err(AllocError),
    }
}

fn expect(
    rt: &impl Abort,
    alloc: Global,
    schema: &Schema,
    query: &str,
    text: &[u8],
    expected: &str,
) -> Result<(), AllocError>
    requires { IsSchema schema.now }
{
    let Some(plan) = plan(alloc, schema, query.as_bytes())? else {
        return Err(AllocError);
    };
    let found = outcome(alloc, &plan, text)?;
    let equal = found.as_str() == expected;
    assert!(rt; equal, "{text:?} gives {found}, and not {expected}");
    Ok(())
}

#[test]
fn texts_give_strategies_or_their_first_refusals(rt: HostRuntime) -> Result<(), Fail> {
    let Ok(schema) = schema(rt.alloc()) else {
        return Err(AllocError.into());
    };
    for (query, text, expected) in CASES {
        expect(&rt, rt.alloc(), &schema, query, text.as_bytes(), expected)?;
    }
    Ok(())
}

/// The limit of a strategy file is its reader's.
#[test]
fn a_long_text_of_spaces_is_an_empty_document(rt: HostRuntime) -> Result<(), Fail> {
    let Ok(schema) = schema(rt.alloc()) else {
        return Err(AllocError.into());
    };
    let spaces = vec![in rt.alloc(); b' '; 1_048_577]?;
    expect(&rt, rt.alloc(), &schema, PRODUCTS, spaces.as_slice(), "")?;
    Ok(())
}
