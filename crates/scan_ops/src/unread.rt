//! What is left to read of a list that is decoded block by block, from its front on.

ghost use Rattle.std.specs.Prelude.{◌≡◌, ◌+◌, ◌<◌, ◌≤◌, [], true, false, length, drop};
ghost use Rattle.definitions_blocks.specs.Blocks.{block_values};
ghost use Rattle.scan_ops.specs.Unread.{left_of, IsUnread};

use block_core::{BLOCK_LEN, Block, BlockSource, Steps};

/// The block that is held, how many of its values were used, the number of the block behind it, and how many blocks the list has. Each
/// block is decoded once.
#[derive(Drop)]
pub(crate) struct Unread {
    pub block: Block,
    pub used: usize,
    pub next: u64,
    blocks: u64,
}

impl Unread {
    /// All of the source's list, of which no block was decoded yet.
    pub fn all_of<S: BlockSource>(source: &S) -> Unread
        ensures unread { IsUnread (S.list source.now) result }
        ensures left { left_of (S.list source.now) result ≡ S.list source.now }
        ensures next { result.next ≡ 0 }
    {
        Unread {
            block: Block::new(),
            used: 0,
            next: 0,
            blocks: source.count().div_ceil(BLOCK_LEN as u64),
        }
    }

    /// Sees that a value is held, by decoding the next block if all values of this one were used. Where none is left it says `false`.
    pub fn fill<S: BlockSource, G>(&mut self, source: &mut S, steps: &mut Steps<G>) -> bool
        requires { IsUnread (S.list source.old) self.old }
        ensures unread { IsUnread (S.list source.old) self.new }
        ensures left { left_of (S.list source.old) self.new ≡ left_of (S.list source.old) self.old }
        ensures held { result ≡ true → self.new.used < length self.new.block }
        ensures ended { result ≡ false → left_of (S.list source.old) self.new ≡ [] }
        ensures kept { S.list source.new ≡ S.list source.old }
        ensures later { steps.old ≤ steps.new }
        ensures steps { steps.new + self.old.next ≤ steps.old + self.new.next }
    {
        if self.used < self.block.as_slice().len() {
            return true;
        }
        if self.next >= self.blocks {
            return false;
        }
        source.block(self.next, &mut self.block, steps);
        self.used = 0;
        self.next += 1;
        true
    }

    /// The values of the block that is held which were not used.
    pub fn values(&self) -> &[u64]
        requires { self.now.used ≤ length self.now.block }
        ensures values { result.now ≡ drop self.now.used self.now.block }
        ensures short { length result.now ≤ block_values }
    {
        &self.block.as_slice()[self.used..]
    }
}
