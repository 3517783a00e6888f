//! What a command answers, before anything is written.

ghost use Rattle.std.specs.Prelude.{◌≡◌, ℕ, List as Items, Option, Some, map, string_bytes};
ghost use Rattle.definitions_outcomes.specs.Outcomes.{OneOr};
ghost use Rattle.stream_core.specs.Files.{Files};
ghost use Rattle.command_words.specs.Commands as commands;
ghost use Rattle.command_words.specs.Views.{command_view, query_view as options_view};
ghost use Rattle.engine_tool.specs.Commands.{has_defaults, if_built, command_in};
ghost use Rattle.engine_tool.specs.Queries.{Spells, max_query};
ghost use Rattle.table_commands.specs.Refusals.{bad_query, limited};
ghost use Rattle.engine_tool.specs.Replies.{QueryOf, AnswerOf};
ghost use Rattle.engine_tool.specs.Ends.{Did, DidAny, inside};
ghost use Rattle.engine_tool.specs.Texts.{query_view};
ghost use Rattle.table_commands.specs.Stops.{Ends, EndsAs, Computes, KeepsStore, KeepsInput, TakesNoMemory};

use crate::loading::loaded_of;
use crate::sums::answer_of;
use crate::text::{SumQuery, read_query};
use command_words::{Command, QueryOptions, WordsError, command_of, help_text};
use query_commands::explain_answer;
use std::alloc::Global;
use stream_core::{Bytes, List, ReadError, Source, Store, read_all};
use table_commands::{
    Refusal, Stop, check_answer, export_answer, ready_import, ready_reformat, save_ready,
};

/// How many bytes a query's text has at most.
const MAX_QUERY: u64 = 65_536;

/// The whole input, where it isn't too long for a query.
fn read_text<I: Source>(alloc: Global, input: &mut I) -> Result<Bytes, Stop>
    ensures step { (text : Items ℕ) → I.left input.old ≡ Some text → Computes (λ (b : Items ℕ). b) result (limited max_query bad_query text) }
    ensures kept { KeepsInput (I.left input.new) (I.faults input.old) (I.faults input.new) result }
{
    match read_all(alloc, input, MAX_QUERY) {
        Ok(text) => Ok(text),
        Err(ReadError::TooLong) => Err(Stop::Refused(Refusal::Query)),
        Err(ReadError::Failed) => Err(Stop::InputFault),
        Err(ReadError::Memory) => Err(Stop::Memory),
    }
}

/// The query that the text spells.
fn spelled(text: &[u8]) -> Result<SumQuery, Stop>
    ensures step { Ends query_view result (OneOr (Spells text.now) bad_query) }
    ensures kept { TakesNoMemory result }
{
    match read_query(text) {
        Some(query) => Ok(query),
        None => Err(Stop::Refused(Refusal::Query)),
    }
}

/// The query that the input spells.
fn query_of<I: Source>(alloc: Global, input: &mut I) -> Result<SumQuery, Stop>
    ensures step { (text : Items ℕ) → I.left input.old ≡ Some text → Ends query_view result (QueryOf text) }
    ensures kept { KeepsInput (I.left input.new) (I.faults input.old) (I.faults input.new) result }
{
    let text = read_text(alloc, input)?;
    spelled(text.as_slice())
}

/// The answer to a query.
fn answer<S: Store>(alloc: Global, store: &mut S, query: &SumQuery) -> Result<Bytes, Stop>
    ensures step { (files : Files) → S.files store.old ≡ Some files → EndsAs result (AnswerOf files (query_view query.now)) }
    ensures kept { KeepsStore (S.files store.old) (S.files store.new) (S.faults store.old) (S.faults store.new) result }
{
    let loaded = loaded_of(alloc, store, query)?;
    answer_of(alloc, &query.condition, loaded)
}

/// Whether a query has no options: none is built yet.
fn has_defaults(options: &QueryOptions) -> bool
    ensures { result ≡ has_defaults (options_view options.now) }
{
    options.lanes == 8 && options.strategy.is_none() && !options.trace && options.dump.is_none()
}

/// The answer to `query`.
fn query<S: Store, I: Source>(
    alloc: Global,
    store: &mut S,
    input: &mut I,
    options: &QueryOptions,
) -> Result<Bytes, Stop>
    ensures { Did (commands.query (options_view options.now)) (inside (S.files store.old) (S.faults store.old) (I.left input.old) (I.faults input.old))
        (inside (S.files store.new) (S.faults store.new) (I.left input.new) (I.faults input.new)) result }
{
    let query = query_of(alloc, input)?;
    answer(alloc, store, &query)
}

/// The answer to `explain`: a text that says no query is refused before the schema is loaded.
fn explain<S: Store, I: Source>(alloc: Global, store: &mut S, input: &mut I) -> Result<Bytes, Stop>
    ensures { Did commands.explain (inside (S.files store.old) (S.faults store.old) (I.left input.old) (I.faults input.old))
        (inside (S.files store.new) (S.faults store.new) (I.left input.new) (I.faults input.new)) result }
{
    explain_answer(alloc, store, input)
}

/// The answer to `check`, which reads no input.
fn check<S: Store>(alloc: Global, store: &mut S) -> Result<Bytes, Stop>
    ensures { (input : Option (Items ℕ)) (input_faults : ℕ) → Did commands.check
        (inside (S.files store.old) (S.faults store.old) input input_faults)
        (inside (S.files store.new) (S.faults store.new) input input_faults) result }
{
    check_answer(alloc, store)
}

/// The answer to `export`, which reads no input.
fn export<S: Store>(alloc: Global, store: &mut S, table: &str) -> Result<Bytes, Stop>
    ensures { (input : Option (Items ℕ)) (input_faults : ℕ) → Did (commands.export table.now)
        (inside (S.files store.old) (S.faults store.old) input input_faults)
        (inside (S.files store.new) (S.faults store.new) input input_faults) result }
{
    export_answer(alloc, store, table)
}

/// The answer to `import`: what is saved is ready, and so is the line that says so, before the first file is written.
fn import<S: Store, I: Source>(
    alloc: Global,
    store: &mut S,
    input: &mut I,
    table: &str,
) -> Result<Bytes, Stop>
    ensures { Did (commands.import table.now) (inside (S.files store.old) (S.faults store.old) (I.left input.old) (I.faults input.old))
        (inside (S.files store.new) (S.faults store.new) (I.left input.new) (I.faults input.new)) result }
{
    let ready = ready_import(alloc, store, input, table)?;
    save_ready(alloc, store, ready)
}

/// The answer to `reformat`, which reads no input.
fn reformat<S: Store>(alloc: Global, store: &mut S, table: &str) -> Result<Bytes, Stop>
    ensures { (input : Option (Items ℕ)) (input_faults : ℕ) → Did (commands.reformat table.now)
        (inside (S.files store.old) (S.faults store.old) input input_faults)
        (inside (S.files store.new) (S.faults store.new) input input_faults) result }
{
    let ready = ready_reformat(alloc, store, table)?;
    save_ready(alloc, store, ready)
}

/// The answer to `help`, which reads nothing.
fn help(alloc: Global) -> Result<Bytes, Stop>
    ensures { (files : Option Files) (store_faults : ℕ) (input : Option (Items ℕ)) (input_faults : ℕ) →
        Did commands.help (inside files store_faults input input_faults) (inside files store_faults input input_faults) result }
{
    let text = Vec::from_slice(alloc, help_text().as_bytes())?;
    Ok(List::from_vec(text))
}

/// What a command answers. One that is not built is answered as words that denote none.
fn done<S: Store, I: Source>(
    alloc: Global,
    command: Command,
    store: &mut S,
    input: &mut I,
) -> Result<Bytes, Stop>
    ensures { DidAny (if_built (command_view command.entry))
        (inside (S.files store.old) (S.faults store.old) (I.left input.old) (I.faults input.old))
        (inside (S.files store.new) (S.faults store.new) (I.left input.new) (I.faults input.new)) result }
{
    match command {
        Command::Import { table } => import(alloc, store, input, table),
        Command::Export { table } => export(alloc, store, table),
        Command::Reformat { table } => reformat(alloc, store, table),
        Command::Check => check(alloc, store),
        Command::Explain => explain(alloc, store, input),
        Command::Help => help(alloc),
        Command::Query(options) => {
            if has_defaults(&options) {
                query(alloc, store, input, &options)
            } else {
                Err(Stop::Usage)
            }
        }
        Command::Demo(_) => Err(Stop::Usage),
    }
}

/// What the words answer.
pub fn reply<S: Store, I: Source>(
    alloc: Global,
    words: &[String],
    store: &mut S,
    input: &mut I,
) -> Result<Bytes, Stop>
    ensures { DidAny (command_in (map string_bytes words.now))
        (inside (S.files store.old) (S.faults store.old) (I.left input.old) (I.faults input.old))
        (inside (S.files store.new) (S.faults store.new) (I.left input.new) (I.faults input.new)) result }
{
    match command_of(alloc, words) {
        Ok(command) => done(alloc, command, store, input),
        Err(WordsError::Usage) => Err(Stop::Usage),
        Err(WordsError::Memory) => Err(Stop::Memory),
    }
}
