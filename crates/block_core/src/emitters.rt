//! What operators write to.

ghost use Rattle.std.specs.Prelude.{◌≡◌, ℕ, ◌+◌, ◌<◌, ◌≤◌, Bool, true, List, [], ◌∷◌, ◌++◌, length, take, IsOk, OnOk, OnErr};
ghost use Rattle.definitions_blocks.specs.Columns.{max_rows};
ghost use Rattle.block_core.specs.Emitters.{HoldsOfPrefixes};

use std::alloc::AllocError;

/// Takes the values of a list in order.
pub trait Emit {
    /// What a push leaves as it was, as a builder's format and width.
    ghost Frame: { Type 0 };

    ghost frame: { Self → Frame };

    /// That the list is what was pushed so far. An emitter may keep less than its list, so that several lists are.
    ghost pushed: { Self → List ℕ → Type 0 };

    /// Which lists the emitter may be given. With a list it holds the list's prefixes.
    ghost scope: { Frame → List ℕ → Bool };

    /// Which lists the emitter is sure to take. With a list it holds the list's prefixes.
    ghost room: { Frame → List ℕ → Bool };

    /// Appends a value. An `Err` changes nothing, and none comes if there is room.
    fn push(&mut self, value: u64) -> Result<(), AllocError>
        requires { (list : List ℕ) × pushed self.old list × (length list < max_rows)
            × (scope (frame self.old) (list ++ value ∷ []) ≡ true) }
        ensures ok { OnOk result ((list : List ℕ) → pushed self.old list → pushed self.new (list ++ value ∷ [])) }
        ensures err { OnErr result ((list : List ℕ) → pushed self.old list → pushed self.new list) }
        ensures frame { frame self.new ≡ frame self.old }
        ensures sure { (list : List ℕ) → pushed self.old list → room (frame self.old) (list ++ value ∷ []) ≡ true → IsOk result };

    /// Appends values. After an `Err` some of the first of them were appended, and none comes if there is room.
    fn extend(&mut self, values: &[u64]) -> Result<(), AllocError>
        requires { (list : List ℕ) × pushed self.old list × (length list + length values.now ≤ max_rows)
            × (scope (frame self.old) (list ++ values.now) ≡ true) }
        ensures ok { OnOk result ((list : List ℕ) → pushed self.old list → pushed self.new (list ++ values.now)) }
        ensures err { OnErr result ((n : ℕ) × ((list : List ℕ) → pushed self.old list → pushed self.new (list ++ take n values.now))) }
        ensures frame { frame self.new ≡ frame self.old }
        ensures sure { (list : List ℕ) → pushed self.old list → room (frame self.old) (list ++ values.now) ≡ true → IsOk result }
    {
        for value in values {
            self.push(*value)?;
        }
        Ok(())
    }

    ghost scope_law: { HoldsOfPrefixes scope };

    ghost room_law: { HoldsOfPrefixes room };
}
