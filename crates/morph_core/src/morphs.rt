//! Morphs: a column's list in another format.

ghost use Rattle.std.specs.Prelude.{◌≡◌, ◌*◌, ◌<◌, ◌≤◌, true, ℕ, [], length, take, IsOk, IfOk, OnOk, OnErr};
ghost use Rattle.definitions_blocks.specs.Blocks.{block_values};
ghost use Rattle.column_core.specs.Columns.{shape};
ghost use Rattle.size_chooser.specs.FormatSizes.{format_in, IsFormatSizeOf};
ghost use Rattle.size_chooser.specs.Reserved.{IsReservedFor};

use block_core::{BLOCK_LEN, Block, BlockSource, Emit, Format, Steps};
use column_core::{Builder, Column, Cursor};
use size_chooser::{FormatSize, reserved_builder_of};
use std::alloc::{AllocError, Global};
use stream_core::Bytes;

/// The column's list in the format. The file's length is found first, by a pass over the blocks that encodes nothing. So the new
/// file takes as much memory as it has bytes, and 8 bytes for each whole block while it is made, all at once, and no block is
/// refused. A morph to the column's own format is a copy of its bytes.
pub fn morph<const L: usize>(
    alloc: Global,
    column: &Column,
    format: Format,
) -> Result<Column, AllocError>
    ensures { IfOk result (λ morphed. morphed ≡ shape format column.now.values) }
{
    if column.format() == format {
        return copied(alloc, column);
    }
    let mut cursor = Cursor::<L>::new(column);
    let size = measured(alloc, &mut cursor, format);
    let builder = reserved_builder_of(alloc, &size)?;
    filled(alloc, &mut cursor, builder)
}

/// The same column in bytes of its own.
fn copied(alloc: Global, column: &Column) -> Result<Column, AllocError>
    ensures { IfOk result (λ copy. copy ≡ column.now) }
{
    let mut bytes = Vec::with_capacity(alloc, column.encoded().len())?;
    bytes.extend_from_slice(column.encoded())?;
    Ok(Column::of_file(Bytes::from_vec(bytes)))
}

/// The size of the source's list in the format.
fn measured<S: BlockSource>(alloc: Global, source: &mut S, format: Format) -> FormatSize
    ensures size { IsFormatSizeOf result (S.list source.old) }
    ensures format { format_in result ≡ format }
    ensures list { S.list source.new ≡ S.list source.old }
{
    let mut size = FormatSize::new(format);
    let _always_ok = emit_blocks(alloc, source, &mut size);
    size
}

/// The column of the source's list, for which the builder has room. It is not refused.
fn filled<S: BlockSource>(
    alloc: Global,
    source: &mut S,
    builder: Builder,
) -> Result<Column, AllocError>
    requires { IsReservedFor builder (S.list source.old) }
    ensures sure { IsOk result }
    ensures column { IfOk result (λ column. column ≡ shape builder.format (S.list source.old)) }
{
    let mut builder = builder;
    emit_blocks(alloc, source, &mut builder)?;
    builder.finish()
}

/// Emits the source's list, a block at a time.
fn emit_blocks<S: BlockSource, O: Emit>(
    alloc: Global,
    source: &mut S,
    out: &mut O,
) -> Result<(), AllocError>
    requires empty { O.pushed out.old [] }
    requires in_scope { O.scope (O.frame out.old) (S.list source.old) ≡ true }
    ensures ok { OnOk result (O.pushed out.new (S.list source.old)) }
    ensures err { OnErr result ((n : ℕ) × O.pushed out.new (take n (S.list source.old))) }
    ensures sure { O.room (O.frame out.old) (S.list source.old) ≡ true → IsOk result }
    ensures frame { O.frame out.new ≡ O.frame out.old }
    ensures list { S.list source.new ≡ S.list source.old }
{
    let mut steps = Steps::start(alloc);
    let mut block = Block::new();
    for number in 0..source.count().div_ceil(BLOCK_LEN as u64) {
        source.block(number, &mut block, &mut steps);
        out.extend(block.as_slice())?;
    }
    Ok(())
}
