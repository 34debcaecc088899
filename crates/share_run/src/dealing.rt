//! How the first seat of a board deals counts and turns out to readers, and gets them back.

ghost use Rattle.std.specs.Prelude.{◌≡◌, ◌+◌, ◌-◌, ◌*◌, ◌<◌, ◌≤◌, [], ◌∷◌, All, length, map, vec_len, vec_capacity};
ghost use Rattle.board_table.specs.Seats.{Counts};
ghost use Rattle.shared_composite.specs.Boards.{view_of, IsSeatOf};
ghost use Rattle.share_run.specs.Standing.{IsChief, spent_by};
ghost use Rattle.share_run.specs.Reading.{AreBlank, Deals, HasOwn, IsBlank, IsReady, MayRead, Names, all_spent, asked_in, asked_of, moves_for, spent_in};

use crate::readers::Reader;
use pool_law::Bytes;
use share_text::Seen;
use shared_composite::{Board, BoardSeat};
use std::mem::replace;

/// Gives each reader that has a read to make a seat with a count of each composite that it reads, and
/// so many turns.
pub fn deal_all(
    board: &Board,
    chief: &mut BoardSeat,
    composites: u32,
    wholes: &[Bytes],
    share: u64,
    readers: &mut [Reader],
)
    requires many { length wholes.now ≡ composites }
    requires chief { IsChief board.now composites 0 chief.old }
    requires turns { composites + length readers.old * share ≤ (view_of chief.old).turns }
    requires moves { moves_for (asked_of readers.old) ≤ (view_of chief.old).moves }
    requires blank { AreBlank wholes.now readers.old }
    ensures chief { IsChief board.now composites 0 chief.new }
    ensures ready { All (IsReady board.now wholes.now) readers.new }
    ensures asked { asked_of readers.new ≡ asked_of readers.old }
    ensures spent { spent_by chief.new + all_spent readers.new ≡ spent_by chief.old }
{
    for reader in readers.iter_mut() {
        deal(board, chief, composites, wholes, share, reader);
    }
}

fn deal(
    board: &Board,
    chief: &mut BoardSeat,
    composites: u32,
    wholes: &[Bytes],
    share: u64,
    reader: &mut Reader,
)
    requires many { length wholes.now ≡ composites }
    requires chief { IsChief board.now composites 0 chief.old }
    requires turns { composites + share ≤ (view_of chief.old).turns }
    requires moves { vec_len reader.old.seen < (view_of chief.old).moves }
    requires blank { IsBlank wholes.now reader.old }
    ensures chief { IsChief board.now composites 0 chief.new }
    ensures ready { IsReady board.now wholes.now reader.new }
    ensures seen { reader.new.seen ≡ reader.old.seen }
    ensures deals { Deals share (vec_len reader.old.seen + 1) (spent_in reader.new.seat)
        (view_of chief.old) (view_of chief.new) }
{
    let _ = wholes;
    if reader.seen.is_empty() {
        return;
    }
    reader.turns = share;
    let seat = hand_all(
        board,
        chief,
        composites,
        share,
        &reader.seen,
        &mut reader.names,
    );
    reader.seat = Some(seat);
}

// A seat with a count of each composite of these reads, and so many turns. The first seat keeps its own
// counts.
fn hand_all(
    board: &Board,
    chief: &mut BoardSeat,
    composites: u32,
    share: u64,
    reads: &[Seen],
    names: &mut Vec<u32>,
) -> BoardSeat
    requires some { 0 < length reads.now }
    requires chief { IsChief board.now composites 0 chief.old }
    requires turns { composites + share ≤ (view_of chief.old).turns }
    requires moves { length reads.now < (view_of chief.old).moves }
    requires reads { All (λ s. s.composite < composites) reads.now }
    requires names { (names.old.items ≡ []) × (length reads.now < vec_capacity names.old) }
    ensures chief { IsChief board.now composites 0 chief.new }
    ensures seat { MayRead board.now share names.new.items result }
    ensures names { Names names.new.items reads.now }
    ensures deals { Deals share (length reads.now + 1) (spent_by result)
        (view_of chief.old) (view_of chief.new) }
{
    let mut seat = hand(board, chief, composites, reads[0].composite, share);
    names.push_reserved(reads[0].composite);
    for read in reads {
        let k = read.composite;
        if !names.contains(&k) {
            let more = hand(board, chief, composites, k, 0);
            board.join(&mut seat, more);
            names.push_reserved(k);
        }
    }
    seat
}

// A seat with a count of a composite, and so many turns. The first seat keeps its own counts.
fn hand(board: &Board, chief: &mut BoardSeat, composites: u32, k: u32, turns: u64) -> BoardSeat
    requires chief { IsChief board.now composites 0 chief.old }
    requires turns { composites + turns ≤ (view_of chief.old).turns }
    requires moves { 0 < (view_of chief.old).moves }
    requires k { k < composites }
    ensures chief { IsChief board.now composites 0 chief.new }
    ensures seat { MayRead board.now turns (k ∷ []) result }
    ensures deals { Deals turns 1 (spent_by result) (view_of chief.old) (view_of chief.new) }
{
    let _ = composites;
    board.retain(chief, k);
    board.hand(chief, k, turns)
}

/// The first seat gets back what the readers have left.
pub fn gather(board: &Board, chief: &mut BoardSeat, composites: u32, readers: &mut [Reader])
    requires chief { IsChief board.now composites 0 chief.old }
    requires own { All (λ r. HasOwn board.now r.seat) readers.old }
    ensures chief { IsChief board.now composites 0 chief.new }
    ensures spent { spent_by chief.new ≡ spent_by chief.old + all_spent readers.old }
    ensures seen { map (λ r. r.seen.items) readers.new ≡ map (λ r. r.seen.items) readers.old }
{
    for reader in readers.iter_mut() {
        take_back(board, chief, composites, reader);
    }
}

fn take_back(board: &Board, chief: &mut BoardSeat, composites: u32, reader: &mut Reader)
    requires chief { IsChief board.now composites 0 chief.old }
    requires own { HasOwn board.now reader.old.seat }
    ensures chief { IsChief board.now composites 0 chief.new }
    ensures spent { spent_by chief.new ≡ spent_by chief.old + spent_in reader.old.seat }
    ensures seen { reader.new.seen ≡ reader.old.seen }
{
    let _ = composites;
    match replace(&mut reader.seat, None) {
        Some(seat) => board.join(chief, seat),
        None => {}
    }
}
