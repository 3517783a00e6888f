//! Strategies: the format of each column and the form of each operator of a plan.

ghost use Rattle.std.specs.Prelude.{◌≡◌, ◌∷◌, [], map, IfOk};
ghost use Rattle.block_core.specs.declared.formats.Format.TheVariants as format;
ghost use Rattle.block_core.specs.declared.formats.FormatChoice.TheVariants as choice;
ghost use Rattle.plan_core.specs.Strategies.{has_special_form, takes_form, form_or_fly, default_strategy, IsStrategy};
ghost use Rattle.plan_core.specs.Views.{operator_view, plan_view};

use crate::plans::{Operator, Plan};
use block_core::{Format, FormatChoice};
use std::alloc::{AllocError, Global};
use stream_core::{List, Name};

/// How an operator runs.
#[derive(Clone, Copy, Debug, PartialEq, Eq)]
pub enum Form {
    /// On whole operands, decoded before.
    Plain,
    /// On its operands' blocks, each decoded as it is read.
    Fly,
    /// On encoded blocks. Only a Select, a SemiJoin, a Group and a Sum without groups have this form.
    Special,
    /// As `Special`, with the blocks changed to runs as they are read.
    Morph,
}

/// A choice for each column and for each operator of a plan, in order.
#[derive(Drop)]
pub struct Strategy {
    pub formats: List<FormatChoice>,
    pub forms: List<Form>,
}

/// Why a text is no strategy of a plan, in the order in which it is tested.
#[derive(Drop)]
pub enum StrategyError {
    /// The bytes are no TOML text.
    Text,
    /// A key, or what it holds, is not allowed: the first at the top level, and else in `formats`, and else in `forms`, in the order of
    /// the keys' bytes. There is no name if the key has not the form of one.
    Unknown { name: Option<Name> },
    /// The first operator, from 1, that is to run in a special form and has none.
    NoSpecial { operator: u32 },
    /// Memory was refused.
    Memory,
}

impl From<AllocError> for StrategyError {
    ghost use Rattle.std.specs.Prelude.{◌≡◌};
    ghost use Rattle.plan_core.specs.declared.strategies.StrategyError.TheVariants as variant;

    ghost from_gives = { λ _ error. error ≡ variant.Memory };

    fn from(_refused: AllocError) -> StrategyError {
        StrategyError::Memory
    }
}

fn has_special_form(operator: &Operator) -> bool
    ensures { result ≡ has_special_form (operator_view operator.now) }
{
    match operator {
        Operator::Select { .. } => true,
        Operator::SemiJoin { .. } => true,
        Operator::Group { .. } => true,
        Operator::Sum { ids, .. } => ids.is_none(),
        _ => false,
    }
}

/// Whether the operator can run in the form.
pub(crate) fn takes_form(operator: &Operator, form: Form) -> bool
    ensures { result ≡ takes_form (operator_view operator.now) form }
{
    match form {
        Form::Plain | Form::Fly => true,
        Form::Special | Form::Morph => has_special_form(operator),
    }
}

/// The default form, or `Fly` where the operator does not take it.
pub(crate) fn form_or_fly(default: Form, operator: &Operator) -> Form
    ensures { result ≡ form_or_fly default (operator_view operator.now) }
{
    if takes_form(operator, default) {
        default
    } else {
        Form::Fly
    }
}

/// Plain columns throughout, and operators that decode as they read.
pub fn default_strategy(alloc: Global, plan: &Plan) -> Result<Strategy, AllocError>
    ensures strategy { IfOk result (λ strategy. strategy ≡ default_strategy (plan_view plan.now)) }
    ensures lawful { IfOk result (λ strategy. IsStrategy (plan_view plan.now) strategy) }
{
    let formats = vec![in alloc; FormatChoice::Fixed(Format::Plain); plan.columns as usize]?;
    let forms = vec![in alloc; Form::Fly; plan.operators.as_slice().len()]?;
    Ok(Strategy {
        formats: List::from_vec(formats),
        forms: List::from_vec(forms),
    })
}
