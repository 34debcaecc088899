//! The lines of notes.

ghost use Rattle.std.specs.Prelude.{◌≡◌, ◌++◌, ◌∷◌, ◌<◌, ◌^◌, ℕ, List, codes, decimal};
ghost use Rattle.pool_law.specs.Text.{Text, did_words, note_words, object_words, spaced};
ghost use Rattle.pool_law.specs.declared.note.Did.{Did};
ghost use Rattle.pool_law.specs.declared.note.Note.{Note};
ghost use Rattle.pool_law.specs.declared.note.Note.TheVariants.{At};
ghost use Rattle.pool_law.specs.declared.note.Object.{Object};
ghost use Rattle.run_text.specs.Reading.{Gives};
ghost use Rattle.run_text.specs.Told.{FitsDid, FitsNote, FitsObject, did_told, kind_done, kind_of, note_told};

use crate::TextNo;
use crate::dids::done_to;
use crate::objects::{busy, object, ref_did};
use crate::regions::root;
use crate::words::Words;
use pool_law::Note;
use std::alloc::Global;

/// The lane of a note line, and what the line tells of the note.
pub fn note_line(alloc: Global, words: &mut Words) -> Result<(u32, Note), TextNo>
    ensures { (lane : ℕ) (note : Note) (more : List Text) → lane < 2 ^ 32 → FitsNote note
        → words.old.rest.now ≡ spaced (codes "note" ∷ (decimal lane ∷ (note_words note ++ more)))
        → Gives result words.new.rest.now (lane, note_told note) more }
{
    let _note = words.next();
    let lane = words.small()?;
    let note = note_in(alloc, words)?;
    Ok((lane, note))
}

// What the next words tell of a note.
fn note_in(alloc: Global, words: &mut Words) -> Result<Note, TextNo>
    ensures { (note : Note) (more : List Text) → FitsNote note
        → words.old.rest.now ≡ spaced (note_words note ++ more)
        → Gives result words.new.rest.now (note_told note) more }
{
    if words.take("ref") {
        let root = root(words)?;
        let did = ref_did(words)?;
        Ok(Note::Ref { root, did })
    } else if words.take("busy") {
        let held = busy(words)?;
        Ok(Note::Busy(held))
    } else {
        step(alloc, words)
    }
}

// What the next words tell of a step at an object.
fn step(alloc: Global, words: &mut Words) -> Result<Note, TextNo>
    ensures { (object : Object) (number : ℕ) (did : Did) (more : List Text) → FitsObject object
        → number < 2 ^ 64 → FitsDid did → kind_done did ≡ kind_of object
        → words.old.rest.now
        ≡ spaced (object_words object ++ (decimal number ∷ (did_words did ++ more)))
        → Gives result words.new.rest.now (At object number (did_told did)) more }
{
    let object = object(words)?;
    let number = words.number()?;
    let did = done_to(alloc, words, &object)?;
    Ok(Note::At {
        object,
        number,
        did,
    })
}
