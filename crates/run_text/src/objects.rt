//! What notes say that needs nothing else: objects, handles, steps on a count, busy marks.

ghost use Rattle.std.specs.Prelude.{◌≡◌, ◌++◌, ◌∷◌, [], List, decimal};
ghost use Rattle.pool_law.specs.Text.{Text, did_words, object_words, ref_words, spaced};
ghost use Rattle.pool_law.specs.declared.note.Did.{Did};
ghost use Rattle.pool_law.specs.declared.note.Held.{Held};
ghost use Rattle.pool_law.specs.declared.note.Object.{Object};
ghost use Rattle.pool_law.specs.declared.note.RefDid.{RefDid};
ghost use Rattle.run_text.specs.Reading.{Gives};
ghost use Rattle.run_text.specs.Told.{FitsDid, FitsHeld, FitsObject, FitsRef, did_told, kind_done};
ghost use Rattle.run_text.specs.Told.Kind.{OfBin};

use crate::words::Words;
use crate::{LineNo, TextNo};
use pool_law::{Did, Held, Object, RefDid};

/// The object of the next words.
pub fn object(words: &mut Words) -> Result<Object, TextNo>
    ensures { (object : Object) (more : List Text) → FitsObject object
        → words.old.rest.now ≡ spaced (object_words object ++ more)
        → Gives result words.new.rest.now object more }
{
    let word = words.next();
    if word == "arena" {
        Ok(Object::Arena(words.small()?))
    } else if word == "cache" {
        let lane = words.small()?;
        let class = words.small()?;
        Ok(Object::Cache { lane, class })
    } else if word == "bin" {
        Ok(Object::Bin(words.small()?))
    } else if word == "mail" {
        let from = words.small()?;
        let to = words.small()?;
        Ok(Object::Mail { from, to })
    } else if word == "root" {
        Ok(Object::Root(words.small()?))
    } else {
        Err(words.refused(LineNo::Form))
    }
}

/// What was done to a bin.
pub fn at_bin(words: &mut Words) -> Result<Did, TextNo>
    ensures { (did : Did) (more : List Text) → kind_done did ≡ OfBin → FitsDid did
        → words.old.rest.now ≡ spaced (did_words did ++ more)
        → Gives result words.new.rest.now (did_told did) more }
{
    let word = words.next();
    if word == "handle" {
        Ok(Did::Handle(words.small()?))
    } else if word == "none" {
        Ok(Did::NoHandle)
    } else if word == "home" {
        Ok(Did::Home(words.small()?))
    } else {
        Err(words.refused(LineNo::Form))
    }
}

/// What was done to the count of a root.
pub fn ref_did(words: &mut Words) -> Result<RefDid, TextNo>
    ensures { (did : RefDid) (more : List Text) → FitsRef did
        → words.old.rest.now ≡ spaced (ref_words did ++ more)
        → Gives result words.new.rest.now did more }
{
    let word = words.next();
    if word == "born" {
        Ok(RefDid::Born)
    } else if word == "retain" {
        Ok(RefDid::Retain)
    } else if word == "kept" {
        Ok(RefDid::Kept)
    } else if word == "ended" {
        Ok(RefDid::Ended)
    } else if word == "vacated" {
        Ok(RefDid::Vacated)
    } else if word == "look" {
        Ok(RefDid::Look(words.small()?))
    } else {
        Err(words.refused(LineNo::Form))
    }
}

/// A busy mark.
pub fn busy(words: &mut Words) -> Result<Held, TextNo>
    ensures { (held : Held) (more : List Text) → FitsHeld held
        → words.old.rest.now ≡ spaced (object_words held.object ++ (decimal held.number ∷ more))
        → Gives result words.new.rest.now held more }
{
    let object = object(words)?;
    let number = words.number()?;
    Ok(Held { object, number })
}
