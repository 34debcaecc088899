//! Why a command is refused before it notes anything.

ghost use Rattle.std.specs.Prelude.{◌≡◌, Bool, map, option_map};
ghost use Rattle.pool_law.specs.declared.run.Shape.{Shape};
ghost use Rattle.pool_law.specs.Refusals.{first_refusal};
ghost use Rattle.lane_reader.specs.Refusing.{refusal_of, Refuses, RefusesWith};
ghost use Rattle.lane_reader.specs.Replying.{reply_of};

use crate::candidate::Candidate;
use crate::lane::Lane;
use crate::replies::Refused;
use crate::setting::Setting;
use pool_law::{Bytes, Command, NameList};

// The first refusal whose cause is there.
fn first_of(refusals: &[(Refused, bool)]) -> Option<Refused>
    ensures { first_refusal (map refusal_of refusals.now) ≡ option_map reply_of result }
{
    for (refused, comes) in refusals {
        if *comes {
            return Some(*refused);
        }
    }
    None
}

impl Lane {
    // Why an allocation is refused.
    fn alloc_refused(&self, setting: &Setting, fresh: u32, size: u32) -> Option<Refused>
        ensures { Refuses setting.now.shape.now self.now (Command.Alloc fresh size) result }
    {
        first_of(&[
            (Refused::Taken, self.taken(fresh)),
            (Refused::TooLarge, setting.classes.class_of(size).is_none()),
        ])
    }

    // Why so many bytes at an index aren't got, nor set.
    fn get_refused(&self, name: u32, index: u32, len: usize, tries: bool) -> Option<Refused>
        ensures { (shape : Shape)
            → Refuses shape self.now (Command.Get name index len tries) result }
    {
        if tries {
            return first_of(&[
                (Refused::Unbound, self.unbound(name)),
                (Refused::Composite, self.composite(name)),
                (Refused::Illegal, self.illegal(name)),
                (Refused::Range, self.range(name, index, len)),
            ]);
        }
        first_of(&[
            (Refused::Unbound, self.unbound(name)),
            (Refused::Illegal, self.illegal(name)),
            (Refused::Range, self.range(name, index, len)),
        ])
    }

    // Why bytes aren't written.
    fn write_refused(&self, name: u32, bytes: &Bytes) -> Option<Refused>
        ensures { (shape : Shape) → Refuses shape self.now (Command.Write name bytes.now) result }
    {
        first_of(&[
            (Refused::Unbound, self.unbound(name)),
            (Refused::Illegal, self.illegal(name)),
            (Refused::Range, self.write_range(name, bytes.items().len())),
        ])
    }

    // Why so many bytes aren't read.
    fn read_refused(&self, name: u32, len: u32) -> Option<Refused>
        ensures { (shape : Shape) → Refuses shape self.now (Command.Read name len) result }
    {
        first_of(&[
            (Refused::Unbound, self.unbound(name)),
            (Refused::Illegal, self.illegal(name)),
            (Refused::Range, self.read_range(name, len)),
        ])
    }

    // Why a slice isn't made.
    fn slice_refused(&self, fresh: u32, name: u32, index: u32, len: u32) -> Option<Refused>
        ensures { (shape : Shape) (retained : Bool)
            → Refuses shape self.now (Command.Slice fresh name index len retained) result }
    {
        first_of(&[
            (Refused::Unbound, self.unbound(name)),
            (Refused::Taken, self.taken(fresh)),
            (Refused::Composite, self.composite(name)),
            (Refused::Illegal, self.illegal(name)),
            (Refused::Range, self.range(name, index, len as usize)),
        ])
    }

    // Why a duplicate isn't made.
    fn dup_refused(&self, fresh: u32, name: u32) -> Option<Refused>
        ensures { (shape : Shape) → Refuses shape self.now (Command.Dup fresh name) result }
    {
        first_of(&[
            (Refused::Unbound, self.unbound(name)),
            (Refused::Taken, self.taken(fresh)),
            (Refused::Composite, self.composite(name)),
            (Refused::Illegal, self.illegal(name)),
        ])
    }

    // Why the count of a name isn't changed, nor asked for.
    fn count_refused(&self, name: u32) -> Option<Refused>
        ensures { (shape : Shape) → Refuses shape self.now (Command.Refcnt name) result }
    {
        first_of(&[
            (Refused::Unbound, self.unbound(name)),
            (Refused::Illegal, self.uncounted(name)),
        ])
    }

    // Why a view isn't touched, nor sent.
    fn touch_refused(&self, name: u32) -> Option<Refused>
        ensures { (shape : Shape) → Refuses shape self.now (Command.Touch name) result }
    {
        first_of(&[
            (Refused::Unbound, self.unbound(name)),
            (Refused::Composite, self.composite(name)),
            (Refused::Illegal, self.illegal(name)),
        ])
    }

    // Why a name isn't forgotten.
    fn forget_refused(&self, name: u32) -> Option<Refused>
        ensures { (shape : Shape) → Refuses shape self.now (Command.Forget name) result }
    {
        first_of(&[(Refused::Unbound, self.unbound(name))])
    }

    // Why a composite isn't made.
    fn compose_refused(
        &self,
        setting: &Setting,
        fresh: u32,
        names: &NameList,
        candidate: &Candidate,
    ) -> Option<Refused>
        ensures { RefusesWith setting.now.shape.now self.now (Command.Compose fresh names.now)
            candidate.now result }
    {
        let names = names.items();
        first_of(&[
            (Refused::Unbound, self.some_unbound(names)),
            (Refused::Taken, self.taken(fresh)),
            (Refused::Composite, self.some_composite(names)),
            (Refused::Illegal, self.some_illegal(names)),
            (Refused::TooLarge, setting.is_too_long(candidate)),
        ])
    }

    // Why a view isn't added to a composite.
    fn add_refused(
        &self,
        setting: &Setting,
        whole: u32,
        name: u32,
        candidate: &Candidate,
    ) -> Option<Refused>
        ensures { RefusesWith setting.now.shape.now self.now (Command.Add whole name)
            candidate.now result }
    {
        first_of(&[
            (Refused::Unbound, self.unbound(whole)),
            (Refused::Unbound, self.unbound(name)),
            (Refused::Plain, self.plain(whole)),
            (Refused::Composite, self.composite(name)),
            (Refused::Illegal, self.illegal(whole)),
            (Refused::Illegal, self.illegal(name)),
            (Refused::TooLarge, setting.is_too_long(candidate)),
        ])
    }

    // Why a root isn't asked for capacity.
    fn capacity_refused(&self, setting: &Setting, name: u32, size: u32) -> Option<Refused>
        ensures { Refuses setting.now.shape.now self.now (Command.Capacity name size) result }
    {
        first_of(&[
            (Refused::Unbound, self.unbound(name)),
            (Refused::Composite, self.composite(name)),
            (Refused::Illegal, self.illegal(name)),
            (Refused::TooLarge, setting.classes.class_of(size).is_none()),
        ])
    }

    /// The first refusal of a command that comes before its notes.
    pub(crate) fn refused(
        &self,
        setting: &Setting,
        command: &Command,
        candidate: &Candidate,
    ) -> Option<Refused>
        ensures { RefusesWith setting.now.shape.now self.now command.now candidate.now result }
    {
        match command {
            Command::Alloc { name, size } => self.alloc_refused(setting, *name, *size),
            Command::Set {
                name,
                at,
                bytes,
                tries,
            } => self.get_refused(*name, *at, bytes.items().len(), *tries),
            Command::Get {
                name,
                at,
                len,
                tries,
            } => self.get_refused(*name, *at, *len as usize, *tries),
            Command::Write { name, bytes } => self.write_refused(*name, bytes),
            Command::Read { name, len } => self.read_refused(*name, *len),
            Command::Slice {
                fresh,
                name,
                at,
                len,
                retained: _,
            } => self.slice_refused(*fresh, *name, *at, *len),
            Command::Dup { fresh, name } => self.dup_refused(*fresh, *name),
            Command::Retain { name } | Command::Release { name } | Command::Refcnt { name } => {
                self.count_refused(*name)
            }
            Command::Touch { name } | Command::Send { name, lane: _ } => self.touch_refused(*name),
            Command::Forget { name } => self.forget_refused(*name),
            Command::Recv { fresh: _, lane: _ } => None,
            Command::Compose { fresh, names } => {
                self.compose_refused(setting, *fresh, names, candidate)
            }
            Command::Add { whole, name } => self.add_refused(setting, *whole, *name, candidate),
            Command::Capacity { name, size } => self.capacity_refused(setting, *name, *size),
        }
    }
}
