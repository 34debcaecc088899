//! The notes of the lanes, made of what the lines tell.

ghost use Rattle.std.specs.Prelude.{◌≡◌, ◌++◌, ◌∷◌, ◌<◌, ◌≢◌, [], ℕ, length, map, List, Some, IfOk, MatchResult, OnOk, slice_get, true};
ghost use Rattle.std.specs.List.{All};
ghost use Rattle.pool_law.specs.declared.note.Note.{Note};
ghost use Rattle.run_text.specs.Told.{note_told};
ghost use Rattle.run_text.specs.Lines.{AreTold, IsTold, Line};
ghost use Rattle.run_text.specs.Knowing.{AreMade, IsAt, line_told, notes_in};
ghost use Rattle.run_text.specs.declared.TextNo.TheVariants.{Memory};

use crate::filling::Filler;
use crate::lines::refusal_of;
use crate::{LineNo, TextNo};
use pool_law::Note;
use std::alloc::{AllocError, Global};

/// The notes that were made of a text, lane by lane.
#[derive(Drop)]
pub struct Making {
    filler: Filler,
    logs: Vec<Vec<Note>>,
}

impl Making {
    /// All notes are made of what their lines tell, of which the first stands behind so many.
    pub fn of(
        alloc: Global,
        lanes: usize,
        arenas: u32,
        told: Vec<(u32, Note)>,
        from: usize,
    ) -> Result<Making, TextNo>
        ensures { (notes : List Line) → told.items ≡ map line_told notes
            → AreTold arenas notes [] notes → 0 < arenas → All (λ line. line.0 < lanes) notes
            → MatchResult result (AreMade arenas lanes notes notes) (λ no. no ≡ Memory) }
    {
        let filler = Filler::told_by(alloc, arenas, &told)?;
        let mut making = Making::new(alloc, filler, lanes)?;
        let mut count = from;
        for line in told {
            making.add(line.0, line.1, count)?;
            count = count.saturating_add(1);
        }
        Ok(making)
    }

    // No note is made yet, of so many lanes.
    fn new(alloc: Global, filler: Filler, lanes: usize) -> Result<Making, AllocError>
        ensures { (arenas : ℕ) (all : List Line) → IsAt arenas all [] filler
            → IfOk result (AreMade arenas lanes all []) }
    {
        let mut logs = Vec::new(alloc);
        for _ in 0..lanes {
            logs.push(Vec::new(alloc))?;
        }
        Ok(Making { filler, logs })
    }

    // The note of the line behind so many is made, where it can be.
    fn add(&mut self, lane: u32, told: Note, count: usize) -> Result<(), TextNo>
        ensures { (arenas lanes : ℕ) (all before : List Line) (note : Note)
            → AreMade arenas lanes all before self.old → told ≡ note_told note
            → IsTold arenas all before lane note → lane < lanes
            → MatchResult result
            (λ done. AreMade arenas lanes all (before ++ (lane, note) ∷ []) self.new)
            (λ no. no ≡ Memory) }
    {
        let note = match self.filler.note(lane, told) {
            Ok(note) => note,
            Err(why) => return Err(refusal_of(count, why)),
        };
        self.filler.pass(&note)?;
        let lane = lane as usize;
        if lane >= self.logs.len() {
            return Err(refusal_of(count, LineNo::Form));
        }
        self.put(lane, note)?;
        Ok(())
    }

    // A note more of a lane.
    fn put(&mut self, lane: usize, note: Note) -> Result<(), AllocError>
        requires { lane < length self.now.logs.items }
        ensures filler { self.new.filler ≡ self.old.filler }
        ensures count { length self.new.logs.items ≡ length self.old.logs.items }
        ensures others { (other : ℕ) → other ≢ lane
            → slice_get (notes_in self.new.logs.items) other
            ≡ slice_get (notes_in self.old.logs.items) other }
        ensures note { (notes : List Note)
            → slice_get (notes_in self.old.logs.items) lane ≡ Some notes
            → OnOk result
            (slice_get (notes_in self.new.logs.items) lane ≡ Some (notes ++ note ∷ [])) }
    {
        self.logs[lane].push(note)?;
        Ok(())
    }

    /// The notes of each lane, where each has some.
    pub fn whole(self) -> Option<Vec<Vec<Note>>>
        ensures { All (λ log. log ≢ []) (notes_in self.logs.items) → result ≡ Some self.logs }
    {
        let Making { logs, .. } = self;
        if have_notes(&logs) { Some(logs) } else { None }
    }
}

// Whether each lane has notes.
fn have_notes(logs: &[Vec<Note>]) -> bool
    ensures { All (λ log. log ≢ []) (notes_in logs.now) → result ≡ true }
{
    for log in logs {
        if log.is_empty() {
            return false;
        }
    }
    true
}
