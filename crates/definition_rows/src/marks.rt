//! Busy marks: where one stands, another lane's note comes next at the object.

ghost use Rattle.std.specs.Prelude.{[], ◌∷◌};
ghost use Rattle.pool_law.specs.declared.note.Did.TheVariants.{Touch};
ghost use Rattle.pool_law.specs.declared.note.Object.{Object};
ghost use Rattle.pool_law.specs.Busy.{MarksFit, MarksHold, BusyHolds};
ghost use Rattle.definition_rows.specs.Notes.{cache, root_place};
ghost use Rattle.definition_rows.specs.Entries.{mark};
ghost use Rattle.definition_rows.specs.MarkPlays.{touches};

/// A mark is not below what its log has noted or marked at the object, and below what it notes
/// there later. Of notes alone nothing is said here.
pub fn marks_in_order()
    ensures between { MarksFit (Object.Root 0) 0 0
        (root_place 0 1 Touch ∷ mark (Object.Root 0) 1 ∷ root_place 0 3 Touch ∷ []) }
    ensures before_the_first { MarksFit (Object.Root 0) 0 0 (mark (Object.Root 0) 0 ∷ []) }
    ensures marked_twice { MarksFit (Object.Root 0) 0 0
        (mark (Object.Root 0) 1 ∷ mark (Object.Root 0) 1 ∷ mark (Object.Root 0) 4 ∷ []) }
    ensures at_another_object { MarksFit (Object.Root 0) 0 0
        (root_place 0 3 Touch ∷ root_place 1 1 Touch ∷ mark (Object.Root 2) 1 ∷ root_place 0 4 Touch
        ∷ []) }
    ensures notes_alone { MarksFit (Object.Root 0) 0 0
        (root_place 0 3 Touch ∷ root_place 0 2 Touch ∷ []) }
    ensures below_a_greater_note { ¬ MarksFit (Object.Root 0) 0 0
        (root_place 0 3 Touch ∷ root_place 0 1 Touch ∷ mark (Object.Root 0) 2 ∷ []) }
    ensures below_a_note { ¬ MarksFit (Object.Root 0) 0 0
        (root_place 0 3 Touch ∷ mark (Object.Root 0) 2 ∷ []) }
    ensures below_a_mark { ¬ MarksFit (Object.Root 0) 0 0
        (mark (Object.Root 0) 3 ∷ mark (Object.Root 0) 2 ∷ []) }
    ensures of_the_next_note { ¬ MarksFit (Object.Root 0) 0 0
        (mark (Object.Root 0) 3 ∷ root_place 0 3 Touch ∷ []) }
{}

/// Lanes 0, 1 and 0 touch a root: a mark of lane 0 stands after the first touch alone.
pub fn notes_of_another_lane()
    ensures after_one { MarksHold 0 touches (mark (Object.Root 0) 1 ∷ []) }
    ensures not_after_none { ¬ MarksHold 0 touches (mark (Object.Root 0) 0 ∷ []) }
    ensures not_after_two { ¬ MarksHold 0 touches (mark (Object.Root 0) 2 ∷ []) }
    ensures not_after_the_last { ¬ MarksHold 1 touches (mark (Object.Root 0) 3 ∷ []) }
    ensures of_the_second_lane { MarksHold 1 touches
        (mark (Object.Root 0) 0 ∷ mark (Object.Root 0) 2 ∷ []) }
{}
