//! CSV records, written field by field to a text in memory.

ghost use Rattle.std.specs.Prelude.{◌≡◌, ◌++◌, ◌∷◌, [], OnOk, IfOk, decimal};
ghost use Rattle.answer_text.specs.Records.{HasWritten, AddsFields, EndsRecord, IsTextOf};

use csv::{Writer, WriterBuilder};
use itoa::Buffer;
use std::alloc::{AllocError, Global};

/// Whole records, and fields of the next one. After a refusal nothing is known of them.
#[derive(Drop)]
pub(crate) struct Records {
    out: Writer<Vec<u8>>,
    digits: Buffer,
}

impl Records {
    /// No records yet, with this byte between fields.
    pub(crate) fn new(alloc: Global, separator: u8) -> Records
        ensures { HasWritten separator [] [] result }
    {
        Records {
            out: WriterBuilder::new()
                .delimiter(separator)
                .from_writer(Vec::new(alloc)),
            digits: Buffer::new(),
        }
    }

    /// Adds a field. It is put in quotes if csv says so.
    pub(crate) fn push_text(&mut self, text: &[u8]) -> Result<(), AllocError>
        ensures { OnOk result (AddsFields (text.now ∷ []) self.old self.new) }
    {
        let Ok(()) = self.out.write_field(text) else {
            return Err(AllocError);
        };
        Ok(())
    }

    /// Adds a number as a field.
    pub(crate) fn push_number(&mut self, number: u64) -> Result<(), AllocError>
        ensures { OnOk result (AddsFields (decimal number ∷ []) self.old self.new) }
    {
        let Ok(()) = self.out.write_field(self.digits.format(number).as_bytes()) else {
            return Err(AllocError);
        };
        Ok(())
    }

    /// Ends the record.
    pub(crate) fn end(&mut self) -> Result<(), AllocError>
        ensures { OnOk result (EndsRecord self.old self.new) }
    {
        let Ok(()) = self.out.end_record() else {
            return Err(AllocError);
        };
        Ok(())
    }

    /// The text of the records. It asks for no memory but what the writer still has to hand over.
    pub(crate) fn into_text(self) -> Result<Vec<u8>, AllocError>
        ensures { IfOk result (λ bytes. IsTextOf bytes.items self) }
    {
        match self.out.into_inner() {
            Ok(text) => Ok(text),
            Err(_) => Err(AllocError),
        }
    }
}
