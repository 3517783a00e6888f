//! The laws of blocks and column files. Each call does nothing: its contract is the law.

ghost use Rattle.definitions_columns.specs.FileLaws.{HasBlock, OneBlock, OneEncoding, OneColumn, OneFile, HasFile, FileSize};

/// Each full block that fits the column's width has an encoding in each format.
pub fn has_block()
    ensures { HasBlock }
{}

/// Bytes begin with the encoding of one block at most, so blocks are read one after the other without a length before each.
pub fn one_block()
    ensures { OneBlock }
{}

/// A block has one encoding at most in each format.
pub fn one_encoding()
    ensures { OneEncoding }
{}

/// Bytes are the file of one column at most: no two lists share a file, in one format and version or in two.
pub fn one_column()
    ensures { OneColumn }
{}

/// A list has one file at most in each version and format. So files can be compared in place of lists.
pub fn one_file()
    ensures { OneFile }
{}

/// Each list of at most 268,435,456 numbers below 2^64 has a file in each version and format.
pub fn has_file()
    ensures { HasFile }
{}

/// A file's length is the sum that is computed block by block, without a byte of it.
pub fn file_size()
    ensures { FileSize }
{}
