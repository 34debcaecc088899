//! What the notes tell of roots and regions.

ghost use Rattle.std.specs.Prelude.{◌≡◌, ◌++◌, ◌∷◌, ◌<◌, [], ℕ, List, Some, IfOk, OnOk};
ghost use Rattle.std.specs.Option.{option_map, option_or};
ghost use Rattle.std.specs.BTreeMap as tree;
ghost use Rattle.std.specs.HashMap as hash;
ghost use Rattle.pool_law.specs.declared.note.Note.{Note};
ghost use Rattle.size_classes.specs.Sizes.{class_count};
ghost use Rattle.run_text.specs.Told.{note_told};
ghost use Rattle.run_text.specs.Lines.{Line, begun_before, formed, keyed, last_born, left, region_with, root_key, same_key, taking_key, uses_after};
ghost use Rattle.run_text.specs.Knowing.{Knows, TellsTaking, TellsUse, key_cmp, use_of};

use crate::telling::{begin_told, birth_told, taking_told};
use pool_law::{Note, Place, RegionId, RootId};
use size_classes::SizeClasses;
use std::alloc::{AllocError, Global};
use std::collections::{BTreeMap, HashMap};

/// Place and generation of a root.
pub type RootKey = (u32, u32);

/// Place and generation of a root.
pub fn key_of(root: &RootId) -> RootKey
    ensures { result ≡ root_key root.now }
{
    (root.place, root.generation)
}

/// Arena and number of a taking.
pub type TakingKey = (u32, u64);

/// Arena and number of the taking of a region.
pub fn taking_key(region: &RegionId) -> TakingKey
    ensures { result ≡ taking_key region.now }
{
    (region.place.arena, region.taking)
}

/// A use of a region, which a birth or a growth begins.
#[derive(Clone, Copy, Drop)]
pub struct Use {
    /// The taking of the region.
    pub taking: TakingKey,
    /// How many uses were made of it, with this one.
    pub uses: u64,
}

/// All roots and regions that the notes of a text tell of.
#[derive(Drop)]
pub struct Known {
    sizes: SizeClasses,
    takings: HashMap<TakingKey, RegionId>,
    births: HashMap<RootKey, RootId>,
    // The uses that the last birth or growth tells of each taking.
    uses: HashMap<TakingKey, u64>,
    // The uses that begin at each root place, by place and number.
    begun: BTreeMap<(u32, u64), Use>,
}

// The greatest chunk, which has the classes of all others: 2^9 pages of so many bytes.
const ALL_CLASSES: (u32, u32) = (9, 32_768);

impl Known {
    /// Nothing is known.
    pub fn new(alloc: Global) -> Result<Known, AllocError>
        ensures { IfOk result (λ known. Knows known [] []) }
    {
        let (order, page) = ALL_CLASSES;
        let sizes = SizeClasses::new(alloc, order, page)?;
        Ok(Known {
            sizes,
            takings: HashMap::new(alloc),
            births: HashMap::new(alloc),
            uses: HashMap::new(alloc),
            begun: BTreeMap::new(alloc),
        })
    }

    /// A region that a lane takes of an arena, by what its line tells: class, spot and number.
    pub fn region_taken(
        &self,
        lane: u32,
        arena: u32,
        class: u32,
        told: &RegionId,
    ) -> Option<RegionId>
        ensures { class < class_count self.now.sizes
            → result ≡ Some (formed lane arena class told.now) }
    {
        if class >= self.sizes.count() {
            return None;
        }
        Some(RegionId {
            place: Place {
                arena,
                chunk: told.place.chunk,
                offset: told.place.offset,
                len: self.sizes.size_of(class),
            },
            class,
            owner: lane,
            taking: told.taking,
            uses: 0,
        })
    }

    /// What a line tells of a taking is known.
    pub fn learn_taking(&mut self, lane: u32, told: &Note) -> Result<(), AllocError>
        ensures { (note : Note) (lines : List Line) → told.now ≡ note_told note
            → TellsTaking lane note → Knows self.old lines []
            → OnOk result (Knows self.new (lines ++ (lane, note) ∷ []) []) }
    {
        let Some((arena, class, region)) = taking_told(told) else {
            return Ok(());
        };
        let Some(region) = self.region_taken(lane, arena, class, &region) else {
            return Ok(());
        };
        self.takings.insert(taking_key(&region), region)?;
        Ok(())
    }

    /// What a line tells of a birth or a growth is known, once all takings are.
    pub fn learn_use(&mut self, told: &Note) -> Result<(), AllocError>
        ensures { (lane : ℕ) (note : Note) (all lines : List Line) → told.now ≡ note_told note
            → TellsUse note → Knows self.old all lines
            → OnOk result (Knows self.new all (lines ++ (lane, note) ∷ [])) }
    {
        self.learn_birth(birth_told(told))?;
        self.learn_begun(begin_told(told))
    }

    // A birth is known, where a line tells one.
    fn learn_birth(&mut self, born: Option<RootId>) -> Result<(), AllocError>
        ensures births { (key : ℕ × ℕ) → OnOk result (hash.get same_key self.new.births key
            ≡ option_or (keyed root_key key born) (hash.get same_key self.old.births key)) }
        ensures rest { self.new ≡ record self.old { births = self.new.births } }
    {
        if let Some(root) = born {
            self.births.insert(key_of(&root), root)?;
        }
        Ok(())
    }

    // A use that begins is known, where a line tells one.
    fn learn_begun(&mut self, begun: Option<(u32, u64, RegionId)>) -> Result<(), AllocError>
        ensures uses { (key : ℕ × ℕ) → OnOk result (hash.get same_key self.new.uses key
            ≡ option_or (option_map (λ b. b.2.uses) (keyed (λ b. taking_key b.2) key begun))
            (hash.get same_key self.old.uses key)) }
        ensures begun { (key : ℕ × ℕ) → OnOk result (tree.get key_cmp self.new.begun key
            ≡ option_or (option_map (λ b. use_of b.2) (keyed (λ b. (b.0, b.1)) key begun))
            (tree.get key_cmp self.old.begun key)) }
        ensures rest { self.new
            ≡ record self.old { uses = self.new.uses; begun = self.new.begun } }
    {
        if let Some((place, number, region)) = begun {
            let begun = Use {
                taking: taking_key(&region),
                uses: region.uses,
            };
            self.uses.insert(begun.taking, begun.uses)?;
            self.begun.insert((place, number), begun)?;
        }
        Ok(())
    }

    /// The root of this place and generation.
    pub fn born(&self, key: RootKey) -> Option<RootId>
        ensures { (all lines : List Line) → Knows self.now all lines
            → result ≡ last_born lines key }
    {
        self.births.get(&key).copied()
    }

    /// The region of a taking, used so often.
    pub fn region(&self, taking: TakingKey, uses: u64) -> Option<RegionId>
        ensures { (all lines : List Line) → Knows self.now all lines
            → result ≡ region_with all taking uses }
    {
        let region = self.takings.get(&taking)?;
        Some(RegionId { uses, ..*region })
    }

    /// The uses that the last birth or growth tells of a taking.
    pub fn uses_of(&self, taking: TakingKey) -> u64
        ensures { (all lines : List Line) → Knows self.now all lines
            → result ≡ uses_after lines taking }
    {
        self.uses.get(&taking).copied().unwrap_or(0)
    }

    // The use that a root place had before the note of this number there.
    fn use_before(&self, place: u32, number: u64) -> Option<Use>
        ensures { (all lines : List Line) → Knows self.now all lines
            → result ≡ option_map (λ b. use_of b.1) (begun_before lines place number) }
    {
        let (key, begun) = self.begun.range(..(place, number)).next_back()?;
        if key.0 == place { Some(*begun) } else { None }
    }

    /// The region that a root place leaves at the note of this number there.
    pub fn left(&self, place: u32, number: u64) -> Option<RegionId>
        ensures { (all : List Line) → Knows self.now all all → result ≡ left all place number }
    {
        let begun = self.use_before(place, number)?;
        self.region(begun.taking, begun.uses)
    }
}
