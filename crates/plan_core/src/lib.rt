//! Plans of bound queries: the operators that answer a query, and the values that a test asks for.
#![tactic(auto)]

mod dimensions;
mod explained;
mod groups;
mod planner;
mod plans;
mod ranges;
mod strategies;
mod strategy_laws;
mod strategy_reading;

pub use explained::explain;
pub use groups::plan_of;
pub use plans::{Input, Operator, Plan, SumPlace};
pub use ranges::{CodeRange, range_of};
pub use strategies::{Form, Strategy, StrategyError, default_strategy};
pub use strategy_laws::one_strategy;
pub use strategy_reading::read_strategy;
