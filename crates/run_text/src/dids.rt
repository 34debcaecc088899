//! What lines tell of what was done to arenas, caches, mails and roots.

ghost use Rattle.std.specs.Prelude.{◌≡◌, ◌++◌, List};
ghost use Rattle.pool_law.specs.Text.{Text, did_words, spaced};
ghost use Rattle.pool_law.specs.declared.note.Did.{Did};
ghost use Rattle.run_text.specs.Reading.{Gives};
ghost use Rattle.run_text.specs.Told.{FitsDid, did_told, kind_done, kind_of};
ghost use Rattle.run_text.specs.Told.Kind.{OfArena, OfCache, OfMail, OfRoot};

use crate::objects::at_bin;
use crate::regions::{begun, parcel, reason, spot, taking};
use crate::words::Words;
use crate::{LineNo, TextNo};
use pool_law::{Did, Object, RootId};
use std::alloc::Global;

/// What was done to this object.
pub fn done_to(alloc: Global, words: &mut Words, object: &Object) -> Result<Did, TextNo>
    ensures { (did : Did) (more : List Text) → kind_done did ≡ kind_of object.now → FitsDid did
        → words.old.rest.now ≡ spaced (did_words did ++ more)
        → Gives result words.new.rest.now (did_told did) more }
{
    match object {
        Object::Arena(_) => at_arena(words),
        Object::Cache { .. } => at_cache(words),
        Object::Bin(_) => at_bin(words),
        Object::Mail { .. } => at_mail(words),
        Object::Root(_) => at_root(alloc, words),
    }
}

fn at_arena(words: &mut Words) -> Result<Did, TextNo>
    ensures { (did : Did) (more : List Text) → kind_done did ≡ OfArena → FitsDid did
        → words.old.rest.now ≡ spaced (did_words did ++ more)
        → Gives result words.new.rest.now (did_told did) more }
{
    let word = words.next();
    if word == "take" {
        let class = words.small()?;
        let region = spot(words)?;
        Ok(Did::Take { class, region })
    } else if word == "full" {
        let class = words.small()?;
        Ok(Did::Full { class })
    } else if word == "give" {
        let region = spot(words)?;
        Ok(Did::Give(region))
    } else {
        Err(words.refused(LineNo::Form))
    }
}

fn at_cache(words: &mut Words) -> Result<Did, TextNo>
    ensures { (did : Did) (more : List Text) → kind_done did ≡ OfCache → FitsDid did
        → words.old.rest.now ≡ spaced (did_words did ++ more)
        → Gives result words.new.rest.now (did_told did) more }
{
    let word = words.next();
    if word == "miss" {
        Ok(Did::Miss)
    } else if word == "trim" {
        let quota = words.small()?;
        Ok(Did::Trim(quota))
    } else if word == "close" {
        let quota = words.small()?;
        Ok(Did::Close(quota))
    } else if word == "hit" {
        let region = taking(words)?;
        Ok(Did::Hit(region))
    } else if word == "kept" {
        let region = taking(words)?;
        Ok(Did::Kept(region))
    } else if word == "back" {
        let no = reason(words)?;
        let region = taking(words)?;
        Ok(Did::Back { region, no })
    } else if word == "shed" {
        let region = taking(words)?;
        Ok(Did::Shed(region))
    } else {
        Err(words.refused(LineNo::Form))
    }
}

fn at_mail(words: &mut Words) -> Result<Did, TextNo>
    ensures { (did : Did) (more : List Text) → kind_done did ≡ OfMail → FitsDid did
        → words.old.rest.now ≡ spaced (did_words did ++ more)
        → Gives result words.new.rest.now (did_told did) more }
{
    let word = words.next();
    if word == "post" {
        let sent = parcel(words)?;
        Ok(Did::Post(sent))
    } else if word == "fetch" {
        let sent = parcel(words)?;
        Ok(Did::Fetch(sent))
    } else {
        Err(words.refused(LineNo::Form))
    }
}

fn at_root(alloc: Global, words: &mut Words) -> Result<Did, TextNo>
    ensures { (did : Did) (more : List Text) → kind_done did ≡ OfRoot → FitsDid did
        → words.old.rest.now ≡ spaced (did_words did ++ more)
        → Gives result words.new.rest.now (did_told did) more }
{
    let word = words.next();
    if word == "set" {
        let offset = words.small()?;
        let bytes = words.bytes(alloc)?;
        Ok(Did::Set { offset, bytes })
    } else if word == "get" {
        let offset = words.small()?;
        let bytes = words.bytes(alloc)?;
        Ok(Did::Get { offset, bytes })
    } else if word == "touch" {
        Ok(Did::Touch)
    } else if word == "birth" {
        let generation = words.small()?;
        let (region, capacity) = begun(words)?;
        let root = RootId {
            place: 0,
            generation,
            capacity,
        };
        Ok(Did::Birth { root, region })
    } else if word == "room" {
        let asked = words.small()?;
        let capacity = words.small()?;
        Ok(Did::Room { asked, capacity })
    } else if word == "extend" {
        let size = words.small()?;
        Ok(Did::Extend(size))
    } else if word == "grow" {
        let (region, capacity) = begun(words)?;
        Ok(Did::Grow { capacity, region })
    } else if word == "end" {
        let generation = words.small()?;
        Ok(Did::End(RootId {
            place: 0,
            generation,
            capacity: 0,
        }))
    } else {
        Err(words.refused(LineNo::Form))
    }
}
