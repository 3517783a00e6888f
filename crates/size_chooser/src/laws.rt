//! The laws of sizes. Each call does nothing: its contract is the law.

ghost use Rattle.std.specs.Prelude.{ℕ, List};
ghost use Rattle.size_chooser.specs.FileSizes.{HasOneLeast};

/// Just one format is least: none has a shorter file, and none before it has one as short.
pub fn one_least()
    ensures { (values : List ℕ) → HasOneLeast values }
{}
