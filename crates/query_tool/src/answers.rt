//! The lines that texts are answered by.

ghost use Rattle.catalog_core.specs.LawfulSchemas.{IsSchema};

use binding_text::{put_needed, put_outcome, put_outcomes};
use catalog_core::{Schema, SchemaError, read_schema};
use std::alloc::{AllocError, Global};

/// What is said of each text.
#[derive(Clone, Copy)]
pub enum Task {
    /// What its query binds to.
    One,
    /// What its queries bind to, with `;` between them.
    Several,
    /// What is to be opened for its query.
    Needs,
}

/// Why no text is answered.
#[derive(Drop)]
pub enum NoAnswer {
    /// The schema's text is cut off or refused.
    Schema,
    Memory,
}

impl From<AllocError> for NoAnswer {
    fn from(_refused: AllocError) -> NoAnswer {
        NoAnswer::Memory
    }
}

/// The text whose length the bytes begin with, and the bytes after it. There is none where fewer bytes follow.
fn split_text(bytes: &[u8]) -> Option<(&[u8], &[u8])> {
    let (len, rest) = bytes.split_first_chunk::<8>()?;
    let len = u64::from_le_bytes(*len);
    if len > rest.len() as u64 {
        return None;
    }
    Some(rest.split_at(len as usize))
}

fn put_answer(
    alloc: Global,
    out: &mut Vec<u8>,
    task: Task,
    text: &[u8],
    schema: &Schema,
) -> Result<(), AllocError>
    requires { IsSchema schema.now }
{
    match task {
        Task::One => put_outcome(alloc, out, text, schema),
        Task::Several => put_outcomes(alloc, out, text, schema),
        Task::Needs => put_needed(alloc, out, text, schema),
    }
}

/// A line for each text. A text takes at least the 8 bytes of its length.
fn lines_of(alloc: Global, task: Task, bytes: &[u8], schema: &Schema) -> Result<Vec<u8>, AllocError>
    requires { IsSchema schema.now }
{
    let mut lines = Vec::new(alloc);
    let mut rest = bytes;
    for _ in 0..bytes.len() / 8 {
        let Some((text, others)) = split_text(rest) else {
            break;
        };
        put_answer(alloc, &mut lines, task, text, schema)?;
        lines.push(b'\n')?;
        rest = others;
    }
    Ok(lines)
}

/// A line for each text after that of the schema. A text that is cut off is left out.
pub fn answers(alloc: Global, task: Task, bytes: &[u8]) -> Result<Vec<u8>, NoAnswer> {
    let Some((schema, texts)) = split_text(bytes) else {
        return Err(NoAnswer::Schema);
    };
    match read_schema(alloc, schema) {
        Ok(schema) => Ok(lines_of(alloc, task, texts, &schema)?),
        Err(SchemaError::Memory) => Err(NoAnswer::Memory),
        Err(_) => Err(NoAnswer::Schema),
    }
}
