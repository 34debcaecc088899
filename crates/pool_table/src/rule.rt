//! The rule, and what each kind of step tells its seat. These types are for the proofs alone.
use crate::bare_slot::BareSlot;
use crate::views::{Layout, SeatView};
use atomic_table::{Join, Play, Split, TableRule};
use pool_law::{Named, Noted};
use std::marker::{Brand, PhantomData};
use std::snapshot::Snapshot;
use step_law::Told;

pub struct Rule;

/// What a table is made for: its layout, and the home values with which it opens.
#[derive(Drop)]
pub struct Opening<H> {
    pub layout: Layout,
    pub homes: Snapshot<Vec<H>>,
}

impl<H: Told<Note = Noted>> TableRule<BareSlot<H>, SeatView, Opening<H>> for Rule {
    ghost use Rattle.pool_table.specs.Sound.{IsSound};
    ghost use Rattle.pool_table.specs.Steps.{first_view};

    ghost holds = { λ opening. IsSound H.stands opening.layout };

    ghost first = { λ opening. first_view opening.layout (H.settles opening.homes.value.items) };
}

/// Which object a claim is of, in which table.
pub trait Claiming {
    ghost use Rattle.pool_law.specs.declared.note.Object.{Object};
    ghost use Rattle.pool_table.specs.declared.views.Layout.{Layout};

    ghost object: { Object };

    ghost layout: { Layout };
}

impl Claiming for Brand {
    ghost use Rattle.pool_table.specs.Steps.{no_object, no_layout};

    ghost object = { no_object };

    ghost layout = { no_layout };
}

pub struct ClaimStep<C> {
    of: PhantomData<C>,
}

impl<H: Told<Note = Noted>, C: Claiming> Play<BareSlot<H>, SeatView> for ClaimStep<C> {
    ghost use Rattle.pool_table.specs.Steps.{claims};

    ghost then = { claims H.stands C.layout C.object };
}

pub struct MarkStep<C> {
    of: PhantomData<C>,
}

impl<H: Told<Note = Noted>, C: Claiming> Play<BareSlot<H>, SeatView> for MarkStep<C> {
    ghost use Rattle.pool_table.specs.Steps.{marks_claims};

    ghost then = { marks_claims H.stands C.layout C.object };
}

pub struct DoneStep<N> {
    of: PhantomData<N>,
}

impl<H: Told<Note = Noted>, N: Named> Play<BareSlot<H>, SeatView> for DoneStep<N> {
    ghost use Rattle.pool_table.specs.Steps.{counts_one, dones};

    ghost then = { counts_one (dones N.note) };
}

pub struct IdleStep;

impl<H: Told<Note = Noted>> Play<BareSlot<H>, SeatView> for IdleStep {
    ghost use Rattle.pool_table.specs.Steps.{idles};

    ghost then = { idles };
}

pub struct BlankStep;

impl Split<SeatView> for BlankStep {
    ghost use Rattle.pool_table.specs.Steps.{blank_beside};

    ghost left = { λ v. v };

    ghost right = { blank_beside };
}

/// How many moves a split passes on.
pub trait Sharing {
    ghost use Rattle.std.specs.Prelude.{ℕ};

    ghost moves: { ℕ };
}

impl Sharing for Brand {
    ghost moves = { 0 };
}

pub struct ShareStep<M> {
    of: PhantomData<M>,
}

impl<M: Sharing> Split<SeatView> for ShareStep<M> {
    ghost use Rattle.pool_table.specs.Steps.{share_left, share_of};

    ghost left = { share_left M.moves };

    ghost right = { share_of M.moves };
}

/// Which letter a split sends.
pub trait Lettered {
    ghost use Rattle.std.specs.Prelude.{ℕ};
    ghost use Rattle.pool_law.specs.declared.id.Parcel.{Parcel};

    ghost to: { ℕ };

    ghost parcel: { Parcel };
}

impl Lettered for Brand {
    ghost use Rattle.pool_table.specs.Steps.{no_parcel};

    ghost to = { 0 };

    ghost parcel = { no_parcel };
}

pub struct SendStep<X> {
    of: PhantomData<X>,
}

impl<X: Lettered> Split<SeatView> for SendStep<X> {
    ghost use Rattle.pool_table.specs.Steps.{sends_next, letter_beside};

    ghost left = { sends_next X.to X.parcel };

    ghost right = { letter_beside X.to X.parcel };
}

/// CutStep off the first of the other parts, with its share of the moves and turns.
pub struct CutStep;

impl Split<SeatView> for CutStep {
    ghost use Rattle.pool_table.specs.Steps.{rest_of_lanes, first_lane};

    ghost left = { rest_of_lanes };

    ghost right = { first_lane };
}

pub struct JoinStep;

impl Join<SeatView> for JoinStep {
    ghost use Rattle.std.specs.Prelude.{None};
    ghost use Rattle.pool_table.specs.Views.{joined, blank};

    ghost both = { joined };

    ghost spent = { blank None };
}

/// Adds the moves of a share, which has nothing else, so that no part of it stays.
pub struct AcceptStep;

impl Join<SeatView> for AcceptStep {
    ghost use Rattle.std.specs.Prelude.{None};
    ghost use Rattle.pool_table.specs.Steps.{share_added};
    ghost use Rattle.pool_table.specs.Views.{blank};

    ghost both = { λ v w. share_added w.moves v };

    ghost spent = { blank None };
}

/// Receives the letter of the other seat.
pub struct ReceiveStep;

impl Join<SeatView> for ReceiveStep {
    ghost use Rattle.std.specs.Prelude.{None};
    ghost use Rattle.pool_table.specs.Views.{blank};
    ghost use Rattle.pool_table.specs.Steps.{receives_with};

    ghost both = { receives_with };

    ghost spent = { blank None };
}

/// A step that notes nothing, at which the seat learns of its counts.
pub struct StayStep<C> {
    of: PhantomData<C>,
}

impl<H: Told<Note = Noted>, C: Claiming> Play<BareSlot<H>, SeatView> for StayStep<C> {
    ghost use Rattle.pool_table.specs.Steps.{counts_one, stays};

    ghost then = { counts_one (stays C.layout) };
}
