//! How a command ends early.

ghost use Rattle.std.specs.Prelude.{◌≡◌, ◌+◌, ◌≤◌, ◌++◌, [], length, codes, decimal, unwrap_or};
ghost use Rattle.stream_core.specs.Names.{schema_file_name};
ghost use Rattle.table_commands.specs.Refusals.{status_of_kind};
ghost use Rattle.table_commands.specs.Importing.{bad_rows, field_words, import_text};
ghost use Rattle.table_commands.specs.Querying.{bad_binding, bad_text, binding_words, text_words, wrong_at};
ghost use Rattle.table_commands.specs.Stops.{refusal_of, what_text, stop_status, stop_line};

use arrayvec::ArrayString;
use itoa::Buffer;
use query_bind::BindError;
use query_text::TextError;
use std::alloc::AllocError;
use stream_core::{FileName, Name};
use table_import::ImportError;

/// A line has at most 119 bytes: `database: `, a file's name of at most 72, `: bad directory ` and a number.
pub type Line = ArrayString<128>;

/// What is wrong with a file of a database.
#[derive(Clone, Copy, Debug, PartialEq, Eq)]
pub enum What {
    NoFile,
    TooLong,
    BadNow,
    BadHeader,
    BadDirectory(u64),
    BadBlock(u64),
    BadWidth,
    BadTail,
    /// A column has another count than the table's rows.
    Length,
    /// An entry of a dictionary, counted from 0.
    BadEntry(u64),
    /// Bytes follow a dictionary's last entry.
    Trailing,
    /// A value of a text column is no code of its dictionary.
    BadCode,
    BadToml,
    /// A key of the schema is not allowed. Tables and columns count from 1; 0 is none.
    Shape { table: u32, column: u32 },
}

/// A cause that the answer names.
#[derive(Drop)]
pub enum Refusal {
    /// The text is no query that is built.
    Query,
    /// The text of a query has more than 65,536 bytes.
    QueryTooLong,
    /// The text of a query is refused for this reason, which is not `Memory`.
    Text(TextError),
    /// A query does not bind to the schema for this reason, which is not `Memory`.
    Binding(BindError),
    /// A file of the database is not good, for this reason.
    Database(FileName, What),
    /// Two tables or two columns of the schema have this name.
    RepeatedName(Name),
    /// Two rows of this table have one key.
    RepeatedKey(Name),
    /// No table of the schema has the name that was asked for.
    NoSuchTable,
    /// The sum is 2^64 or more.
    SumTooWide,
    /// The text of an import has more than 1,073,741,824 bytes.
    ImportTooLong,
    /// The text of an import is refused for this reason, which is not `Memory`.
    Import(ImportError),
}

impl Refusal {
    /// The exit status.
    pub fn status(&self) -> u8
        ensures { result ≡ status_of_kind (refusal_of self.now).kind }
    {
        match self {
            Refusal::Query | Refusal::QueryTooLong | Refusal::Text(_) | Refusal::Binding(_) => 1,
            Refusal::Database(_, _)
            | Refusal::RepeatedName(_)
            | Refusal::RepeatedKey(_)
            | Refusal::NoSuchTable => 4,
            Refusal::SumTooWide => 5,
            Refusal::ImportTooLong | Refusal::Import(_) => 7,
        }
    }

    /// The line that is written, with its line feed.
    pub fn line(&self) -> Line
        ensures { result.bytes ≡ (refusal_of self.now).line }
    {
        match self {
            Refusal::Query => line_of("query: not built\n"),
            Refusal::QueryTooLong => line_of("query: too long\n"),
            Refusal::Text(error) => text_line(*error),
            Refusal::Binding(error) => binding_line(*error),
            Refusal::Database(file, what) => database_line(file, *what),
            Refusal::RepeatedName(name) => repeated_name_line(name),
            Refusal::RepeatedKey(table) => repeated_key_line(table),
            Refusal::NoSuchTable => line_of("database: no such table\n"),
            Refusal::SumTooWide => line_of("sum 1 operand 1 group 1: too wide\n"),
            Refusal::ImportTooLong => line_of("import: too long\n"),
            Refusal::Import(error) => import_line(*error),
        }
    }
}

/// A short text as a line.
fn line_of(text: &str) -> Line
    requires { length text.now ≤ 128 }
    ensures { result.bytes ≡ text.now }
{
    let mut line = ArrayString::new();
    line.push_str(text);
    line
}

/// `database: FILE: WHAT`.
fn database_line(file: &FileName, what: What) -> Line
    ensures { result.bytes ≡ codes "database: " ++ file.now ++ codes ": " ++ what_text what ++ codes "\n" }
{
    let mut line = line_of("database: ");
    line.push_str(file.as_str());
    line.push_str(": ");
    push_what(&mut line, what);
    line.push_str("\n");
    line
}

/// `database: schema.toml: repeated NAME`.
fn repeated_name_line(name: &Name) -> Line
    ensures { result.bytes ≡ codes "database: " ++ schema_file_name ++ codes ": " ++ (codes "repeated " ++ name.now) ++ codes "\n" }
{
    let mut line = line_of("database: schema.toml: repeated ");
    line.push_str(name.as_str());
    line.push_str("\n");
    line
}

/// `database: TABLE: repeated key`.
fn repeated_key_line(table: &Name) -> Line
    ensures { result.bytes ≡ codes "database: " ++ table.now ++ codes ": " ++ codes "repeated key" ++ codes "\n" }
{
    let mut line = line_of("database: ");
    line.push_str(table.as_str());
    line.push_str(": repeated key\n");
    line
}

/// `query: WHAT at PLACE`, of a text.
fn text_line(error: TextError) -> Line
    ensures { result.bytes ≡ (bad_text error).line }
{
    let mut line = line_of("query: ");
    push_text(&mut line, error);
    line.push_str("\n");
    line
}

/// `query: WHAT at PLACE`, of a binding.
fn binding_line(error: BindError) -> Line
    ensures { result.bytes ≡ (bad_binding error).line }
{
    let mut line = line_of("query: ");
    push_binding(&mut line, error);
    line.push_str("\n");
    line
}

/// Appends what is wrong with a query's text: at most 40 bytes.
fn push_text(line: &mut Line, error: TextError)
    requires { length line.old.bytes ≤ 8 }
    ensures text { line.new.bytes ≡ line.old.bytes ++ unwrap_or (text_words error) [] }
    ensures short { length line.new.bytes ≤ length line.old.bytes + 40 }
{
    match error {
        TextError::BadByte { at } => push_wrong(line, "bad byte", at),
        TextError::NumberTooLarge { at } => push_wrong(line, "number too large", at),
        TextError::OpenString { at } => push_wrong(line, "open string", at),
        TextError::Syntax { at } => push_wrong(line, "syntax", at),
        TextError::Memory => (),
    }
}

/// Appends why a query does not bind: at most 40 bytes.
fn push_binding(line: &mut Line, error: BindError)
    requires { length line.old.bytes ≤ 8 }
    ensures text { line.new.bytes ≡ line.old.bytes ++ unwrap_or (binding_words error) [] }
    ensures short { length line.new.bytes ≤ length line.old.bytes + 40 }
{
    match error {
        BindError::UnknownTable { at } => push_wrong(line, "unknown table", at),
        BindError::UnknownColumn { at } => push_wrong(line, "unknown column", at),
        BindError::NotInFrom { at } => push_wrong(line, "not in from", at),
        BindError::FactCount { at } => push_wrong(line, "fact count", at),
        BindError::JoinShape { at } => push_wrong(line, "join shape", at),
        BindError::JoinMissing { at } => push_wrong(line, "join missing", at),
        BindError::JoinTwice { at } => push_wrong(line, "join twice", at),
        BindError::TypeMismatch { at } => push_wrong(line, "type mismatch", at),
        BindError::GroupMismatch { at } => push_wrong(line, "group mismatch", at),
        BindError::OrderUnknown { at } => push_wrong(line, "order unknown", at),
        BindError::NameTwice { at } => push_wrong(line, "name twice", at),
        BindError::Memory => (),
    }
}

/// Appends `WHAT at PLACE`.
fn push_wrong(line: &mut Line, what: &str, at: u64)
    requires room { length line.old.bytes ≤ 8 }
    requires few { length what.now ≤ 16 }
    ensures text { line.new.bytes ≡ line.old.bytes ++ wrong_at what.now at }
    ensures short { length line.new.bytes ≤ length line.old.bytes + 40 }
{
    let mut buffer = Buffer::new();
    line.push_str(what);
    line.push_str(" at ");
    line.push_str(buffer.format(at));
}

/// `import: WHAT`.
fn import_line(error: ImportError) -> Line
    ensures { result.bytes ≡ (bad_rows error).line }
{
    let mut line = line_of("import: ");
    push_import(&mut line, error);
    line.push_str("\n");
    line
}

/// Appends what is wrong with a text that is imported: at most 68 bytes.
fn push_import(line: &mut Line, error: ImportError)
    requires { length line.old.bytes ≤ 8 }
    ensures text { line.new.bytes ≡ line.old.bytes ++ unwrap_or (import_text error) [] }
    ensures short { length line.new.bytes ≤ length line.old.bytes + 68 }
{
    match error {
        ImportError::TooManyRows => line.push_str("too many rows"),
        ImportError::FieldCount { row, found } => push_count(line, row, found),
        ImportError::BadNumber { row, field } => push_field(line, row, field, "bad number"),
        ImportError::BadText { row, field } => push_field(line, row, field, "bad text"),
        ImportError::TextTooLong { row, field } => { push_field(line, row, field, "text too long") }
        ImportError::RepeatedKey { row } => push_repeated(line, row),
        ImportError::Memory => (),
    }
}

/// Appends `row R: F fields`.
fn push_count(line: &mut Line, row: u64, found: u64)
    requires { length line.old.bytes ≤ 8 }
    ensures text { line.new.bytes ≡ line.old.bytes ++ (codes "row " ++ decimal row ++ codes ": " ++ decimal found ++ codes " fields") }
    ensures short { length line.new.bytes ≤ length line.old.bytes + 68 }
{
    let mut buffer = Buffer::new();
    line.push_str("row ");
    line.push_str(buffer.format(row));
    line.push_str(": ");
    line.push_str(buffer.format(found));
    line.push_str(" fields");
}

/// Appends `row R field F: WHAT`.
fn push_field(line: &mut Line, row: u64, field: u64, what: &str)
    requires room { length line.old.bytes ≤ 8 }
    requires few { length what.now ≤ 13 }
    ensures text { line.new.bytes ≡ line.old.bytes ++ (field_words row field ++ what.now) }
    ensures short { length line.new.bytes ≤ length line.old.bytes + 68 }
{
    let mut buffer = Buffer::new();
    line.push_str("row ");
    line.push_str(buffer.format(row));
    line.push_str(" field ");
    line.push_str(buffer.format(field));
    line.push_str(": ");
    line.push_str(what);
}

/// Appends `row R: repeated key`.
fn push_repeated(line: &mut Line, row: u64)
    requires { length line.old.bytes ≤ 8 }
    ensures text { line.new.bytes ≡ line.old.bytes ++ (codes "row " ++ decimal row ++ codes ": repeated key") }
    ensures short { length line.new.bytes ≤ length line.old.bytes + 68 }
{
    let mut buffer = Buffer::new();
    line.push_str("row ");
    line.push_str(buffer.format(row));
    line.push_str(": repeated key");
}

/// Appends what is wrong with a file: at most 34 bytes.
fn push_what(line: &mut Line, what: What)
    requires { length line.old.bytes ≤ 90 }
    ensures text { line.new.bytes ≡ line.old.bytes ++ what_text what }
    ensures short { length line.new.bytes ≤ length line.old.bytes + 34 }
{
    match what {
        What::NoFile => line.push_str("no file"),
        What::TooLong => line.push_str("too long"),
        What::BadNow => line.push_str("bad now"),
        What::BadHeader => line.push_str("bad header"),
        What::BadDirectory(block) => push_numbered(line, "bad directory ", block),
        What::BadBlock(block) => push_numbered(line, "bad block ", block),
        What::BadWidth => line.push_str("bad width"),
        What::BadTail => line.push_str("bad tail"),
        What::Length => line.push_str("length"),
        What::BadEntry(entry) => push_numbered(line, "bad entry ", entry),
        What::Trailing => line.push_str("trailing"),
        What::BadCode => line.push_str("bad code"),
        What::BadToml => line.push_str("bad toml"),
        What::Shape { table, column } => push_shape(line, table, column),
    }
}

/// Appends the place of a key of the schema.
fn push_shape(line: &mut Line, table: u32, column: u32)
    requires { length line.old.bytes ≤ 90 }
    ensures text { line.new.bytes ≡ line.old.bytes ++ (codes "shape " ++ decimal table ++ codes " " ++ decimal column) }
    ensures short { length line.new.bytes ≤ length line.old.bytes + 34 }
{
    let mut buffer = Buffer::new();
    line.push_str("shape ");
    line.push_str(buffer.format(table));
    line.push_str(" ");
    line.push_str(buffer.format(column));
}

/// Appends a short text and a number.
fn push_numbered(line: &mut Line, what: &str, block: u64)
    requires room { length line.old.bytes ≤ 90 }
    requires few { length what.now ≤ 14 }
    ensures text { line.new.bytes ≡ line.old.bytes ++ (what.now ++ decimal block) }
    ensures short { length line.new.bytes ≤ length line.old.bytes + 34 }
{
    let mut buffer = Buffer::new();
    line.push_str(what);
    line.push_str(buffer.format(block));
}

/// Why a step doesn't go on.
#[derive(Drop)]
pub enum Stop {
    /// The words denote no command.
    Usage,
    Refused(Refusal),
    /// A call of the store failed.
    StoreFault,
    /// A read of the input failed.
    InputFault,
    /// Memory was refused.
    Memory,
}

impl Stop {
    pub fn status(&self) -> u8
        ensures { result ≡ stop_status self.now }
    {
        match self {
            Stop::Usage => 2,
            Stop::Refused(refusal) => refusal.status(),
            Stop::StoreFault | Stop::InputFault => 3,
            Stop::Memory => 6,
        }
    }

    pub fn line(&self) -> Line
        ensures { result.bytes ≡ stop_line self.now }
    {
        match self {
            Stop::Usage => line_of("usage: see morphq help\n"),
            Stop::Refused(refusal) => refusal.line(),
            Stop::StoreFault => line_of("fault: store\n"),
            Stop::InputFault => line_of("fault: input\n"),
            Stop::Memory => line_of("memory\n"),
        }
    }
}

impl From<AllocError> for Stop {
    ghost use Rattle.std.specs.Prelude.{◌≡◌};
    ghost use Rattle.table_commands.specs.declared.stops.Stop.TheVariants as stop;

    ghost from_gives = { λ _ given. given ≡ stop.Memory };

    fn from(_refused: AllocError) -> Stop {
        Stop::Memory
    }
}
