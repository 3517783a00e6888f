//! Runs an operator many times, for `bench/operators`, which times it.
//!
//! The words are an operation, a format's name, a number of rows, a parameter (a percentage, or a number of keys or groups), a number
//! of rounds, and `sparse` where keys are to lie far apart. It prints a checksum. Without words it does nothing.
#![tactic(auto)]

mod grouping;
mod joining;
mod operands;
mod output;
mod scanning;
mod sets;
mod summing;

ghost use Rattle.std.specs.Prelude.{◌≤◌};
ghost use Rattle.definitions_blocks.specs.Columns.{max_rows};

use block_core::{Format, MAX_ROWS};
use grouping::{group_rounds, refine_rounds};
use joining::{join_build_rounds, join_rounds, semi_build_rounds, semi_join_rounds};
use operands::Work;
use scanning::{project_every_rounds, project_rounds, select_rounds};
use sets::{intersect_rounds, union_rounds};
use std::alloc::{AllocError, Global};
use std::{env, io};
use summing::{sum_by_rounds, sum_product_by_rounds, sum_product_rounds, sum_rounds};

/// What is done in each round.
#[derive(Clone, Copy)]
enum Operation {
    /// The rows of so many percent are selected.
    Select,
    /// The values at the rows of so many percent.
    Project,
    /// The values at each so many-th row.
    ProjectEvery,
    /// The rows of so many percent, and those of half of all.
    Intersect,
    Union,
    /// The rows of a foreign key, of which half are among so many keys.
    SemiJoin,
    SemiBuild,
    /// The rows of a foreign key beside the places among so many keys.
    Join,
    JoinBuild,
    /// So many groups.
    Group,
    Refine,
    Sum,
    SumProduct,
    SumBy,
    SumProductBy,
}

/// The operation of a name.
fn operation_named(name: &str) -> Option<Operation> {
    for (operation, called) in [
        (Operation::Select, "select"),
        (Operation::Project, "project"),
        (Operation::ProjectEvery, "project_every"),
        (Operation::Intersect, "intersect"),
        (Operation::Union, "union"),
        (Operation::SemiJoin, "semi_join"),
        (Operation::SemiBuild, "semi_build"),
        (Operation::Join, "join"),
        (Operation::JoinBuild, "join_build"),
        (Operation::Group, "group"),
        (Operation::Refine, "refine"),
        (Operation::Sum, "sum"),
        (Operation::SumProduct, "sum_product"),
        (Operation::SumBy, "sum_by"),
        (Operation::SumProductBy, "sum_product_by"),
    ] {
        if called == name {
            return Some(operation);
        }
    }
    None
}

/// The number that a word says, or 0.
fn number(word: &String) -> u64 {
    word.as_str().parse().unwrap_or(0)
}

/// The checksum of the rounds of an operation.
fn checksum(alloc: Global, operation: Operation, work: &Work) -> Result<u64, AllocError>
    requires { work.now.rows ≤ max_rows }
{
    match operation {
        Operation::Select => select_rounds(alloc, work),
        Operation::Project => project_rounds(alloc, work),
        Operation::ProjectEvery => project_every_rounds(alloc, work),
        Operation::Intersect => intersect_rounds(alloc, work),
        Operation::Union => union_rounds(alloc, work),
        Operation::SemiJoin => semi_join_rounds(alloc, work),
        Operation::SemiBuild => semi_build_rounds(alloc, work),
        Operation::Join => join_rounds(alloc, work),
        Operation::JoinBuild => join_build_rounds(alloc, work),
        Operation::Group => group_rounds(alloc, work),
        Operation::Refine => refine_rounds(alloc, work),
        Operation::Sum => sum_rounds(alloc, work),
        Operation::SumProduct => sum_product_rounds(alloc, work),
        Operation::SumBy => sum_by_rounds(alloc, work),
        Operation::SumProductBy => sum_product_by_rounds(alloc, work),
    }
}

fn main(rt: HostRuntime) -> io::Result<()> {
    let words: Vec<String> = env::args(&rt)?.collect(rt.alloc())?;
    if words.len() < 6 {
        return Ok(());
    }
    let (Some(operation), Some(format)) = (operation_named(&words[1]), Format::from_name(&words[2]))
    else {
        return Ok(());
    };
    let work = Work {
        format,
        rows: number(&words[3]).min(MAX_ROWS),
        parameter: number(&words[4]).max(1),
        rounds: number(&words[5]),
        sparse: words.len() > 6,
    };
    let sum = checksum(rt.alloc(), operation, &work)?;
    println!(rt; "{sum}")
}
