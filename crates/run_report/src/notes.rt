//! The lines of notes.

ghost use Rattle.std.specs.Prelude.{◌≡◌, ◌++◌, ◌∷◌, [], OnOk, codes, decimal};
ghost use Rattle.pool_law.specs.Text.{all_notes, did_words, line, note_lines, note_words, object_words, parcel_words, ref_words, region_words, shown_bytes};
ghost use Rattle.pool_law.specs.declared.note.Did.{Did};
ghost use Rattle.run_report.specs.Words.{after_spaces};

use crate::words::reason_of;
use crate::writer::Writer;
use pool_law::{Did, LaneLog, Note, Object, RefDid, RegionId, RootId, ViewData};
use std::alloc::AllocError;

impl Writer {
    // The words of an object.
    fn object(&mut self, object: &Object) -> Result<(), AllocError>
        ensures { OnOk result (self.new ≡ self.old ++ after_spaces (object_words object.now)) }
    {
        match object {
            Object::Arena(number) => self.named("arena", u64::from(*number)),
            Object::Cache { lane, class } => {
                self.named("cache", u64::from(*lane))?;
                self.number(u64::from(*class))
            }
            Object::Bin(lane) => self.named("bin", u64::from(*lane)),
            Object::Mail { from, to } => {
                self.named("mail", u64::from(*from))?;
                self.number(u64::from(*to))
            }
            Object::Root(place) => self.named("root", u64::from(*place)),
        }
    }

    // Chunk and offset of a region, and its taking's number.
    fn region(&mut self, region: &RegionId) -> Result<(), AllocError>
        ensures { OnOk result (self.new ≡ self.old ++ after_spaces (region_words region.now)) }
    {
        self.plus(region.place.chunk, region.place.offset)?;
        self.number(region.taking)
    }

    // The words of a parcel.
    fn parcel(&mut self, view: &Option<ViewData>) -> Result<(), AllocError>
        ensures { OnOk result (self.new ≡ self.old ++ after_spaces (parcel_words view.now)) }
    {
        match view {
            None => self.word("empty"),
            Some(view) => {
                self.dotted(view.root.place, view.root.generation)?;
                self.plus(view.offset, view.len)?;
                self.number(u64::from(view.reader))?;
                self.number(u64::from(view.writer))
            }
        }
    }

    // The words of a birth.
    fn birth(&mut self, root: &RootId, region: &RegionId) -> Result<(), AllocError>
        ensures { OnOk result
            (self.new ≡ self.old ++ after_spaces (did_words (Did.Birth root.now region.now))) }
    {
        self.named("birth", u64::from(root.generation))?;
        self.place(&region.place)?;
        self.number(region.taking)?;
        self.number(region.uses)?;
        self.number(u64::from(root.capacity))
    }

    // The words of a growth.
    fn growth(&mut self, capacity: u32, region: &RegionId) -> Result<(), AllocError>
        ensures { OnOk result
            (self.new ≡ self.old ++ after_spaces (did_words (Did.Grow capacity region.now))) }
    {
        self.word("grow")?;
        self.place(&region.place)?;
        self.number(region.taking)?;
        self.number(region.uses)?;
        self.number(u64::from(capacity))
    }

    // A word, and the words of a parcel.
    fn handed(&mut self, word: &str, view: &Option<ViewData>) -> Result<(), AllocError>
        ensures { OnOk result
            (self.new ≡ self.old ++ after_spaces (word.now ∷ parcel_words view.now)) }
    {
        self.word(word)?;
        self.parcel(view)
    }

    // A word, and the bytes from an offset on.
    fn bytes_at(&mut self, word: &str, offset: u32, bytes: &[u8]) -> Result<(), AllocError>
        ensures { OnOk result (self.new
            ≡ self.old ++ after_spaces (word.now ∷ decimal offset ∷ shown_bytes bytes.now ∷ [])) }
    {
        self.named(word, u64::from(offset))?;
        self.shown(bytes)
    }

    // The words of what was done to an object.
    fn did(&mut self, did: &Did) -> Result<(), AllocError>
        ensures { OnOk result (self.new ≡ self.old ++ after_spaces (did_words did.now)) }
    {
        match did {
            Did::Take { class, region } => {
                self.named("take", u64::from(*class))?;
                self.region(region)
            }
            Did::Full { class } => self.named("full", u64::from(*class)),
            Did::Give(region) => {
                self.word("give")?;
                self.region(region)
            }
            Did::Hit(region) => self.named("hit", region.taking),
            Did::Miss => self.word("miss"),
            Did::Kept(region) => self.named("kept", region.taking),
            Did::Back { region, no } => {
                self.word("back")?;
                self.named(reason_of(*no), region.taking)
            }
            Did::Trim(quota) => self.named("trim", u64::from(*quota)),
            Did::Close(quota) => self.named("close", u64::from(*quota)),
            Did::Shed(region) => self.named("shed", region.taking),
            Did::Handle(place) => self.named("handle", u64::from(*place)),
            Did::NoHandle => self.word("none"),
            Did::Home(place) => self.named("home", u64::from(*place)),
            Did::Post(parcel) => self.handed("post", &parcel.view),
            Did::Fetch(parcel) => self.handed("fetch", &parcel.view),
            Did::Birth { root, region } => self.birth(root, region),
            Did::Set { offset, bytes } => self.bytes_at("set", *offset, bytes.items()),
            Did::Get { offset, bytes } => self.bytes_at("get", *offset, bytes.items()),
            Did::Touch => self.word("touch"),
            Did::Room { asked, capacity } => {
                self.named("room", u64::from(*asked))?;
                self.number(u64::from(*capacity))
            }
            Did::Extend(size) => self.named("extend", u64::from(*size)),
            Did::Grow { capacity, region } => self.growth(*capacity, region),
            Did::End(root) => self.named("end", u64::from(root.generation)),
        }
    }

    // The words of a step on a reference word.
    fn ref_did(&mut self, did: RefDid) -> Result<(), AllocError>
        ensures { OnOk result (self.new ≡ self.old ++ after_spaces (ref_words did)) }
    {
        match did {
            RefDid::Born => self.word("born"),
            RefDid::Retain => self.word("retain"),
            RefDid::Kept => self.word("kept"),
            RefDid::Ended => self.word("ended"),
            RefDid::Vacated => self.word("vacated"),
            RefDid::Look(count) => self.named("look", u64::from(count)),
        }
    }

    // The words of a note.
    fn note(&mut self, note: &Note) -> Result<(), AllocError>
        ensures { OnOk result (self.new ≡ self.old ++ after_spaces (note_words note.now)) }
    {
        match note {
            Note::At {
                object,
                number,
                did,
            } => {
                self.object(object)?;
                self.number(*number)?;
                self.did(did)
            }
            Note::Ref { root, did } => {
                self.word("ref")?;
                self.dotted(root.place, root.generation)?;
                self.ref_did(*did)
            }
            Note::Busy(held) => {
                self.word("busy")?;
                self.object(&held.object)?;
                self.number(held.number)
            }
        }
    }

    // The line of a note.
    #[tactic(auto, using(crate::proofs::WordLaws::words))]
    fn note_line(&mut self, lane: usize, note: &Note) -> Result<(), AllocError>
        ensures { OnOk result
            (self.new ≡ self.old ++ line (codes "note" ∷ decimal lane ∷ note_words note.now)) }
    {
        self.first("note")?;
        self.number(lane as u64)?;
        self.note(note)?;
        self.end()
    }

    // The note lines of a lane.
    fn lane_notes(&mut self, lane: usize, notes: &[Note]) -> Result<(), AllocError>
        ensures { OnOk result (self.new ≡ self.old ++ note_lines lane notes.now) }
    {
        for note in notes {
            self.note_line(lane, note)?;
        }
        Ok(())
    }

    /// Appends the note lines of the lanes.
    pub fn all_notes(&mut self, logs: &[LaneLog]) -> Result<(), AllocError>
        ensures { OnOk result (self.new ≡ self.old ++ all_notes 0 logs.now) }
    {
        for lane in 0..logs.len() {
            self.lane_notes(lane, logs[lane].notes.items())?;
        }
        Ok(())
    }
}
