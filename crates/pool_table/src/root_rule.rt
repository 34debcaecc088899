//! What each step on the count of a root tells its seat. These types are for the proofs alone.
use crate::bare_slot::BareSlot;
use crate::views::SeatView;
use atomic_table::Play;
use pool_law::Noted;
use std::marker::{Brand, PhantomData};
use step_law::Told;

/// Which root a step is on.
pub trait Rooted {
    ghost use Rattle.pool_law.specs.declared.id.RootId.{RootId};

    ghost root: { RootId };
}

impl Rooted for Brand {
    ghost use Rattle.pool_table.specs.Steps.{no_root};

    ghost root = { no_root };
}

pub struct RetainStep<R> {
    of: PhantomData<R>,
}

impl<H: Told<Note = Noted>, R: Rooted> Play<BareSlot<H>, SeatView> for RetainStep<R> {
    ghost use Rattle.pool_table.specs.Steps.{counts_one, retains};

    ghost then = { counts_one (retains R.root) };
}

pub struct LookStep<R> {
    of: PhantomData<R>,
}

impl<H: Told<Note = Noted>, R: Rooted> Play<BareSlot<H>, SeatView> for LookStep<R> {
    ghost use Rattle.pool_table.specs.Steps.{counts_one, looks};

    ghost then = { counts_one (looks R.root) };
}

pub struct ReleaseStep<R> {
    of: PhantomData<R>,
}

impl<H: Told<Note = Noted>, R: Rooted> Play<BareSlot<H>, SeatView> for ReleaseStep<R> {
    ghost use Rattle.pool_table.specs.Steps.{counts_one, releases};

    ghost then = { counts_one (releases R.root) };
}

pub struct VacateStep<R> {
    of: PhantomData<R>,
}

impl<H: Told<Note = Noted>, R: Rooted> Play<BareSlot<H>, SeatView> for VacateStep<R> {
    ghost use Rattle.pool_table.specs.Steps.{counts_one, vacates};

    ghost then = { counts_one (vacates R.root) };
}

pub struct BirthStep<R> {
    of: PhantomData<R>,
}

impl<H: Told<Note = Noted>, R: Rooted> Play<BareSlot<H>, SeatView> for BirthStep<R> {
    ghost use Rattle.pool_table.specs.Steps.{births, counts_one};

    ghost then = { counts_one (births R.root) };
}
