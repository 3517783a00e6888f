//! The shortest of a list's files, as a profile finds it and as the files are.

ghost use Rattle.std.specs.Prelude.{◌≤◌, length};
ghost use Rattle.definitions_blocks.specs.Columns.{max_rows};

use block_core::Format;
use column_core::encode_list;
use size_chooser::profile_of;
use std::alloc::{AllocError, Global};

/// The format that a profile finds least, and how many bytes it says that the file has.
pub fn least_by_profile(values: &[u64]) -> (Format, u64)
    requires { length values.now ≤ max_rows }
{
    let profile = profile_of(values);
    let format = profile.least();
    (format, profile.sizes()[format.tag() as usize])
}

/// The format of the shortest file and its bytes, by encoding the list in full in every format. Of several the first is taken.
pub fn least_by_files(alloc: Global, values: &[u64]) -> Result<(Format, u64), AllocError>
    requires { length values.now ≤ max_rows }
{
    let mut least = (Format::Plain, file_len(alloc, values, Format::Plain)?);
    for format in Format::ALL {
        let bytes = file_len(alloc, values, format)?;
        if bytes < least.1 {
            least = (format, bytes);
        }
    }
    Ok(least)
}

/// How many bytes the list's file has in the format, by encoding it.
pub fn file_len(alloc: Global, values: &[u64], format: Format) -> Result<u64, AllocError>
    requires { length values.now ≤ max_rows }
{
    Ok(encode_list(alloc, values, format)?.encoded().len() as u64)
}
