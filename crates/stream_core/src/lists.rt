//! A list that contracts see as a list.

ghost use Rattle.std.specs.Prelude.{◌≡◌, List as Items};

use std::marker::Model;

/// Values in order, over a `Vec` that it is made from and given back as. Neither copies a value nor takes memory.
#[derive(Drop)]
pub struct List<T> {
    values: Vec<T>,
}

impl<T> Model for List<T> {
    ghost use Rattle.std.specs.Prelude.{List as Items};

    ghost Value = { Items T };

    ghost view = { λ list. list.values.items };
}

impl<T> List<T> {
    pub fn from_vec(values: Vec<T>) -> List<T>
        ensures { result ≡ values.items }
    {
        List { values }
    }

    pub fn into_vec(self) -> Vec<T>
        ensures { result.items ≡ self }
    {
        self.values
    }

    pub fn as_slice(&self) -> &[T]
        ensures { result.now ≡ self.now }
    {
        self.values.as_slice()
    }
}

/// The bytes of a file or a text.
pub type Bytes = List<u8>;
