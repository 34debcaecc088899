//! Laws of the takings of legal runs. Each law is the contract of a function that does nothing.

ghost use Rattle.std.specs.Prelude.{ℕ};
ghost use Rattle.pool_law.specs.declared.run.Run.{Run};
ghost use Rattle.pool_law.specs.Legal.{IsLegal};
ghost use Rattle.run_picture.specs.Blocks.{arena_blocks, LieApart};

/// In a legal run no two takings of one arena share a byte at a moment.
pub fn blocks_never_meet()
    ensures apart { (run : Run) → IsLegal run → (arena : ℕ) → LieApart (arena_blocks run arena) }
{}
