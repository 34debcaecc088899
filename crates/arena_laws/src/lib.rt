#![tactic(auto)]
//! Laws of one arena's history: the takings that are out together lie apart, and come back before
//! their bytes are taken again. These two hold for each size that a page can have.
//! Each law is the contract of a function that does nothing.

ghost use Rattle.std.specs.Prelude.{◌≡◌, ℕ, List, Some};
ghost use Rattle.size_classes.specs.Sizes.{IsPage};
ghost use Rattle.pool_law.specs.declared.note.Did.{Did};
ghost use Rattle.pool_law.specs.declared.run.Shape.{Shape};
ghost use Rattle.pool_law.specs.Arenas.{Arena};
ghost use Rattle.pool_law.specs.Histories.{arena_after};
ghost use Rattle.arena_laws.specs.Returns.{ComesBackBetween};
ghost use Rattle.arena_laws.specs.Slots.{OutApart};
ghost use Rattle.arena_laws.specs.Takings.{TakingsInOrder};

/// After every history of an arena, the takings that are out together have no byte in common.
pub fn takings_lie_apart()
    ensures apart { (shape : Shape) (number : ℕ) → IsPage shape.page →
        (ds : List Did) (a : Arena) → arena_after shape number ds ≡ Some a → OutApart a }
{}

/// Between two takings of one arena whose places overlap, the first came back.
pub fn takings_come_back()
    ensures between { (shape : Shape) (number : ℕ) → IsPage shape.page →
        ComesBackBetween shape number }
{}

/// The takings of an arena are numbered from 1 in the order of its history, with no uses, and with
/// their class's length.
pub fn takings_in_order()
    ensures order { (shape : Shape) (number : ℕ) → TakingsInOrder shape number }
{}
