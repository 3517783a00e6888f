//! Where operators write to: room that was made before.

ghost use Rattle.std.specs.Prelude.{◌≡◌, [], IfOk};

use block_core::Emit;
use std::alloc::{AllocError, Global};
use std::marker::Model;

/// A list of words, to which those of an operator are appended.
#[derive(Drop)]
pub struct Output {
    words: Vec<u64>,
}

impl Model for Output {
    ghost use Rattle.std.specs.Prelude.{List, ℕ};

    ghost Value = { List ℕ };

    ghost view = { λ output. output.words.items };
}

impl Output {
    /// Room for so many words.
    pub fn new(alloc: Global, count: u64) -> Result<Output, AllocError>
        ensures { IfOk result (λ output. output ≡ []) }
    {
        Ok(Output {
            words: Vec::with_capacity(alloc, count as usize)?,
        })
    }

    /// Takes all words out. The room stays.
    pub fn clear(&mut self)
        ensures { self.new ≡ [] }
    {
        self.words.clear();
    }

    /// A checksum of all words.
    pub fn sum(&self) -> u64 {
        let mut sum = 0u64;
        for word in self.words.as_slice() {
            sum = sum.wrapping_mul(31).wrapping_add(*word);
        }
        sum.wrapping_add(self.words.len() as u64)
    }

    /// A checksum of a word and of how many there are.
    pub fn round_sum(&self, round: u64) -> u64 {
        let word = match self.words.get(round as usize & 1023) {
            Some(word) => *word,
            None => 0,
        };
        word.wrapping_add(self.words.len() as u64 ^ round)
    }
}

impl Emit for Output {
    ghost use Rattle.std.specs.Prelude.{◌≡◌, true, false};

    ghost Frame = { Unit {0} };

    ghost frame = { λ _. tt };

    ghost pushed = { λ output list. output ≡ list };

    ghost scope = { λ _ _. true };

    ghost room = { λ _ _. false };

    fn push(&mut self, value: u64) -> Result<(), AllocError> {
        self.words.push(value)?;
        Ok(())
    }

    fn extend(&mut self, values: &[u64]) -> Result<(), AllocError> {
        self.words.extend_from_slice(values)
    }

    ghost scope_law = { λ _ _ _ e. e };

    ghost room_law = { λ _ _ _ e. e };
}
