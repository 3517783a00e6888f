//! Builders that have room for the list that was measured.

ghost use Rattle.std.specs.Prelude.{◌≡◌, ◌≤◌, true, ℕ, List, [], length, IfOk};
ghost use Rattle.definitions_blocks.specs.Formats.{IsColumnWidth};
ghost use Rattle.definitions_columns.specs.ColumnFiles.{static_width_of, fits_columns};
ghost use Rattle.definitions_columns.specs.Sizes.{size_of};
ghost use Rattle.block_core.specs.Formats.{format_of};
ghost use Rattle.column_core.specs.Columns.{encoding_of, reserve};
ghost use Rattle.size_chooser.specs.FormatSizes.{format_in, IsFormatSizeOf};
ghost use Rattle.size_chooser.specs.Profiles.{IsProfileOf};
ghost use Rattle.size_chooser.specs.Reserved.{IsReservedFor};

use crate::format_sizes::FormatSize;
use crate::profiles::Profile;
use block_core::Format;
use column_core::Builder;
use std::alloc::{AllocError, Global};

/// A builder of no values yet that takes the profile's list in the format, and is finished with it, without asking for memory.
pub fn reserved_builder(
    alloc: Global,
    format: Format,
    profile: &Profile,
) -> Result<Builder, AllocError>
    ensures format { IfOk result (λ builder. builder.format ≡ format) }
    ensures room { (values : List ℕ) → IsProfileOf profile.now values → IfOk result (λ builder. IsReservedFor builder values) }
{
    let width = width_in(profile, format);
    builder_with(
        alloc,
        format,
        width,
        size_in(profile, format),
        profile.count(),
    )
}

/// A builder of no values yet that takes the list that was measured, in its format, and is finished with it, without asking for
/// memory.
pub fn reserved_builder_of(alloc: Global, size: &FormatSize) -> Result<Builder, AllocError>
    ensures format { IfOk result (λ builder. builder.format ≡ format_in size.now) }
    ensures room { (values : List ℕ) → IsFormatSizeOf size.now values → IfOk result (λ builder. IsReservedFor builder values) }
{
    builder_with(
        alloc,
        size.format(),
        size.static_width(),
        size.size(),
        size.count(),
    )
}

/// A builder at a width that has so many bytes and values reserved.
fn builder_with(
    alloc: Global,
    format: Format,
    width: u8,
    bytes: u64,
    count: u64,
) -> Result<Builder, AllocError>
    requires { IsColumnWidth (format_of format) width }
    ensures { IfOk result (λ builder. builder ≡ encoding_of format width (reserve bytes count) []) }
{
    let mut builder = Builder::new(alloc, format, width)?;
    builder.reserve(bytes, count)?;
    Ok(builder)
}

/// The static width of the format's file.
fn width_in(profile: &Profile, format: Format) -> u8
    ensures lawful { IsColumnWidth (format_of format) result }
    ensures width { (values : List ℕ) → IsProfileOf profile.now values → result ≡ static_width_of (format_of format) values }
    ensures fits { (values : List ℕ) → IsProfileOf profile.now values → fits_columns (format_of format) result values ≡ true }
{
    match format {
        Format::Static => profile.static_width(),
        _ => 0,
    }
}

/// How many bytes the format's file has.
fn size_in(profile: &Profile, format: Format) -> u64
    ensures { (values : List ℕ) → IsProfileOf profile.now values → result ≡ size_of (format_of format) values }
{
    profile.sizes()[format.tag() as usize]
}
