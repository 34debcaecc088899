//! The rule, and what each kind of step tells its seat. These types are for the proofs alone.

use crate::views::{BoardView, Opening};
use atomic_table::{Join, Play, Split, TableRule};
use std::marker::{Brand, PhantomData};

/// What stands at home for one composite of a table that was made from a `T`.
pub trait Homed<T> {
    ghost use Rattle.std.specs.Prelude.{ℕ};

    // The value stands for the composite of this number.
    ghost stands: { T → ℕ → Self → Type 0 };

    // How many turns its own seat has left, at the pool in which its components are.
    ghost left: { Self → ℕ };
}

pub struct Rule;

impl<T, H: Homed<T>> TableRule<Option<H>, BoardView, Opening<T>> for Rule {
    ghost use Rattle.board_table.specs.Sound.{IsSound};
    ghost use Rattle.board_table.specs.Views.{first_view};

    ghost holds = { λ opening. IsSound H.stands H.left opening };

    ghost first = { λ opening. first_view opening.composites opening.moves opening.turns };
}

/// Which composite a step is on, and what is known of the table and of its home.
pub trait Stepping<H> {
    ghost use Rattle.std.specs.Prelude.{ℕ, Option};
    ghost use Rattle.atomic_table.specs.Table.{State};
    ghost use Rattle.board_table.specs.declared.views.BoardView.{BoardView};

    ghost composite: { ℕ };

    ghost holds: { State (Option H) BoardView → Type 0 };

    ghost fits: { H → ℕ → Type 0 };
}

impl<H> Stepping<H> for Brand {
    ghost use Rattle.std.specs.Prelude.{⊤};

    ghost composite = { 0 };

    ghost holds = { λ s. ⊤ };

    ghost fits = { λ x turns. ⊤ };
}

pub struct ClaimStep<C> {
    of: PhantomData<C>,
}

impl<H, C: Stepping<H>> Play<Option<H>, BoardView> for ClaimStep<C> {
    ghost use Rattle.board_table.specs.Steps.{claims};

    ghost then = { claims C.holds C.fits C.composite };
}

pub struct DoneStep;

impl<H> Play<Option<H>, BoardView> for DoneStep {
    ghost use Rattle.board_table.specs.Steps.{dones};

    ghost then = { dones };
}

pub struct TakeStep;

impl<H> Play<Option<H>, BoardView> for TakeStep {
    ghost use Rattle.board_table.specs.Steps.{takes};

    ghost then = { takes };
}

pub struct RetainStep<C> {
    of: PhantomData<C>,
}

impl<H, C: Stepping<H>> Play<Option<H>, BoardView> for RetainStep<C> {
    ghost use Rattle.board_table.specs.Steps.{retains};

    ghost then = { retains C.composite };
}

pub struct ReleaseStep<C> {
    of: PhantomData<C>,
}

impl<H, C: Stepping<H>> Play<Option<H>, BoardView> for ReleaseStep<C> {
    ghost use Rattle.board_table.specs.Steps.{releases};

    ghost then = { releases C.holds C.composite };
}

/// What a split hands on: a count of one composite, and so many turns.
pub trait Handing {
    ghost use Rattle.std.specs.Prelude.{ℕ};

    ghost composite: { ℕ };

    ghost turns: { ℕ };
}

impl Handing for Brand {
    ghost composite = { 0 };

    ghost turns = { 0 };
}

pub struct HandStep<C> {
    of: PhantomData<C>,
}

impl<C: Handing> Split<BoardView> for HandStep<C> {
    ghost use Rattle.board_table.specs.Views.{hand_left, handed};

    ghost left = { hand_left C.composite C.turns };

    ghost right = { handed C.composite C.turns };
}

pub struct JoinStep;

impl Join<BoardView> for JoinStep {
    ghost use Rattle.board_table.specs.Views.{joined, blank};

    ghost both = { joined };

    ghost spent = { blank };
}
