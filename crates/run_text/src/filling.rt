//! Notes, from what their lines tell.

ghost use Rattle.std.specs.Prelude.{◌≡◌, ◌++◌, ◌∷◌, ◌<◌, [], ℕ, List, Option, Ok, Some, IfOk, OnOk, map, false};
ghost use Rattle.std.specs.Option.{option_map};
ghost use Rattle.pool_law.specs.declared.id.RootId.{RootId};
ghost use Rattle.pool_law.specs.declared.id.ViewData.{ViewData};
ghost use Rattle.pool_law.specs.declared.note.Did.{Did};
ghost use Rattle.pool_law.specs.declared.note.Note.{Note};
ghost use Rattle.run_text.specs.Told.{did_told, note_told, view_told};
ghost use Rattle.run_text.specs.Lines.{AreTold, IsDidTold, IsTold, IsViewTold, Line, begun, last_born, place_of};
ghost use Rattle.run_text.specs.Knowing.{IsAt, Knows, line_told, of_region};

mod hands;
mod named;

use crate::LineNo;
use crate::known::{Known, RootKey, TakingKey, key_of, taking_key};
use pool_law::{Did, Note, Object, Parcel, RegionId, RootId, ViewData};
use std::alloc::{AllocError, Global};
use std::collections::HashMap;

/// The notes of a text, as they are made one after another of what their lines tell.
#[derive(Drop)]
pub struct Filler {
    known: Known,
    // The uses that the last birth or growth tells of each taking, of the notes that were passed.
    passed: HashMap<TakingKey, u64>,
    // How many arenas there are.
    arenas: u32,
    // The region that came to a lane's hands last: it was taken, hit or shed, or it was left by an end or
    // a growth; none, where these left one that isn't known. It is this one that is put away.
    hand: Option<RegionId>,
}

// What is there, or the refusal of the line.
fn known_or<T: Drop>(known: Option<T>, why: LineNo) -> Result<T, LineNo>
    ensures { (it : T) → known ≡ Some it → result ≡ Ok it }
{
    match known {
        Some(it) => Ok(it),
        None => Err(why),
    }
}

// The region of a use that a note begins.
fn begun(note: &Note) -> Option<RegionId>
    ensures { result ≡ option_map (λ b. b.1) (begun note.now) }
{
    match note {
        Note::At {
            did: Did::Birth { region, .. },
            ..
        } => Some(*region),
        Note::At {
            did: Did::Grow { region, .. },
            ..
        } => Some(*region),
        _ => None,
    }
}

// What all lines tell of takings; of births and uses nothing is known yet.
fn takings_told(alloc: Global, told: &[(u32, Note)]) -> Result<Known, AllocError>
    ensures { (arenas : ℕ) (lines : List Line) → told.now ≡ map line_told lines
        → AreTold arenas lines [] lines → IfOk result (λ known. Knows known lines []) }
{
    let mut known = Known::new(alloc)?;
    for line in told {
        known.learn_taking(line.0, &line.1)?;
    }
    Ok(known)
}

impl Filler {
    /// What all lines tell of roots and regions; of the notes themselves none was passed yet.
    pub fn told_by(alloc: Global, arenas: u32, told: &[(u32, Note)]) -> Result<Filler, AllocError>
        ensures { (lines : List Line) → told.now ≡ map line_told lines
            → AreTold arenas lines [] lines
            → 0 < arenas → IfOk result (IsAt arenas lines []) }
    {
        let mut known = takings_told(alloc, told)?;
        for line in told {
            known.learn_use(&line.1)?;
        }
        Ok(Filler {
            known,
            passed: HashMap::new(alloc),
            arenas,
            hand: None,
        })
    }

    /// The next note, which this lane made.
    pub fn note(&self, lane: u32, told: Note) -> Result<Note, LineNo>
        ensures { (arenas : ℕ) (all before : List Line) (note : Note)
            → IsAt arenas all before self.now
            → told ≡ note_told note → IsTold arenas all before lane note → result ≡ Ok note }
    {
        match told {
            Note::At {
                object,
                number,
                did,
            } => {
                let did = self.done(lane, &object, did)?;
                Ok(Note::At {
                    object,
                    number,
                    did,
                })
            }
            Note::Ref { root, did } => {
                let root = self.root(key_of(&root))?;
                Ok(Note::Ref { root, did })
            }
            Note::Busy(held) => Ok(Note::Busy(held)),
        }
    }

    /// A note is passed.
    pub fn pass(&mut self, note: &Note) -> Result<(), AllocError>
        ensures { (arenas : ℕ) (all before : List Line) (lane : ℕ) → IsAt arenas all before self.old
            → OnOk result (IsAt arenas all (before ++ (lane, note.now) ∷ []) self.new) }
    {
        self.hand = self.brought(note).unwrap_or(self.hand);
        let Some(region) = begun(note) else {
            return Ok(());
        };
        self.passed.insert(taking_key(&region), region.uses)?;
        Ok(())
    }

    // The root of this place and generation.
    fn root(&self, key: RootKey) -> Result<RootId, LineNo>
        ensures { (arenas : ℕ) (all before : List Line) (root : RootId)
            → IsAt arenas all before self.now
            → last_born all key ≡ Some root → result ≡ Ok root }
    {
        known_or(self.known.born(key), LineNo::Root)
    }

    // What was done, where the line tells this of it.
    fn done(&self, lane: u32, object: &Object, told: Did) -> Result<Did, LineNo>
        ensures { (arenas : ℕ) (all before : List Line) (did : Did)
            → IsAt arenas all before self.now
            → told ≡ did_told did → IsDidTold arenas all before lane object.now did
            → result ≡ Ok did }
    {
        match told {
            Did::Take { class, region } => {
                let region = self.taken(lane, object, class, &region)?;
                Ok(Did::Take { class, region })
            }
            Did::Give(region) => {
                let region = self.put(object, &region)?;
                Ok(Did::Give(region))
            }
            Did::Hit(region) => {
                let region = self.hit(object, &region)?;
                Ok(Did::Hit(region))
            }
            Did::Kept(region) => {
                let region = self.kept(object, &region)?;
                Ok(Did::Kept(region))
            }
            Did::Back { region, no } => {
                let region = self.put(object, &region)?;
                Ok(Did::Back { region, no })
            }
            Did::Shed(region) => {
                let region = self.shed(object, &region)?;
                Ok(Did::Shed(region))
            }
            other => self.done_to_root(object, other),
        }
    }

    // What was done that needs no region, or one that a root begins to use.
    fn done_to_root(&self, object: &Object, told: Did) -> Result<Did, LineNo>
        ensures { (arenas : ℕ) (all before : List Line) (lane : ℕ) (did : Did)
            → IsAt arenas all before self.now → of_region told ≡ false → told ≡ did_told did
            → IsDidTold arenas all before lane object.now did → result ≡ Ok did }
    {
        match told {
            Did::Post(parcel) => {
                let parcel = self.parcel(parcel)?;
                Ok(Did::Post(parcel))
            }
            Did::Fetch(parcel) => {
                let parcel = self.parcel(parcel)?;
                Ok(Did::Fetch(parcel))
            }
            Did::Birth { root, region } => {
                let root = RootId {
                    place: place_of(object),
                    generation: root.generation,
                    capacity: root.capacity,
                };
                let region = self.used(&region)?;
                Ok(Did::Birth { root, region })
            }
            Did::Grow { capacity, region } => {
                let region = self.used(&region)?;
                Ok(Did::Grow { capacity, region })
            }
            Did::End(root) => {
                let root = self.root((place_of(object), root.generation))?;
                Ok(Did::End(root))
            }
            other => Ok(other),
        }
    }

    // A parcel.
    fn parcel(&self, told: Parcel) -> Result<Parcel, LineNo>
        ensures { (arenas : ℕ) (all before : List Line) (view : Option ViewData)
            → IsAt arenas all before self.now → told.view ≡ view_told view → IsViewTold all view
            → result ≡ Ok (record { view = view }) }
    {
        match told.view {
            None => Ok(Parcel { view: None }),
            Some(view) => {
                let root = self.root(key_of(&view.root))?;
                Ok(Parcel {
                    view: Some(ViewData {
                        root,
                        offset: view.offset,
                        len: view.len,
                        reader: view.reader,
                        writer: view.writer,
                    }),
                })
            }
        }
    }
}

// The place of a root.
fn place_of(object: &Object) -> u32
    ensures { result ≡ place_of object.now }
{
    match object {
        Object::Root(place) => *place,
        Object::Arena(_) | Object::Cache { .. } | Object::Bin(_) | Object::Mail { .. } => 0,
    }
}
