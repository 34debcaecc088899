//! The names of a lane, and what they are bound to.

ghost use Rattle.std.specs.Prelude.{◌≡◌, ◌<◌, ◌≤◌, length, replicate, slice_set, Some, None, IfOk, IfSome, IfNone};
ghost use Rattle.pool_law.specs.Composites.{Composite};
ghost use Rattle.pool_law.specs.Names.{Composed as Whole};
ghost use Rattle.lane_context.specs.Composing.{set_marks};
ghost use Rattle.lane_context.specs.Named.{bound_at, bound_of};

use crate::bound::Bound;
use crate::composed::{Composed, Marks};
use std::alloc::{AllocError, Global};
use std::marker::Model;

/// What each name is bound to. Names are numbers, from 0 on.
#[derive(Drop)]
pub struct Names {
    bound: Vec<Option<Bound>>,
}

impl Model for Names {
    ghost use Rattle.std.specs.Prelude.{List, Option, map, option_map};
    ghost use Rattle.pool_law.specs.Names.{Bound};
    ghost use Rattle.lane_context.specs.Named.{bound_of};

    ghost Value = { List (Option Bound) };

    ghost view = { λ names. map (option_map bound_of) names.bound.items };
}

impl Names {
    /// So many names, none of which is bound.
    pub fn new(alloc: Global, count: usize) -> Result<Names, AllocError>
        ensures { IfOk result (λ names. names ≡ replicate count None) }
    {
        let mut bound = Vec::with_capacity(alloc, count)?;
        for _ in 0..count {
            bound.push(None)?;
        }
        Ok(Names { bound })
    }

    /// What a name is bound to.
    pub fn get(&self, name: u32) -> Option<&Bound>
        ensures bound { IfSome result (λ b. bound_at self.now name ≡ Some (bound_of b.now)) }
        ensures unbound { IfNone result (bound_at self.now name ≡ None) }
    {
        self.bound.get(name as usize)?.as_ref()
    }

    /// Binds a name, whatever it was bound to.
    pub(crate) fn bind(&mut self, name: u32, bound: Bound)
        requires { name < length self.old }
        ensures { self.new ≡ slice_set self.old name (Some (bound_of bound)) }
    {
        self.bound[name as usize] = Some(bound);
    }

    /// Unbinds a name.
    pub(crate) fn unbind(&mut self, name: u32)
        requires { name < length self.old }
        ensures { self.new ≡ slice_set self.old name None }
    {
        self.bound[name as usize] = None;
    }

    /// The composite of a name, if it is bound to one.
    pub fn composite(&self, name: u32) -> Option<&Composed>
        ensures some { IfSome result (λ c. bound_at self.now name ≡ Some (Whole c.now)) }
        ensures none { IfNone result ((c : Composite) →
            bound_at self.now name ≡ Some (Whole c) → ⊥) }
    {
        match self.get(name) {
            Some(Bound::Composed(composed)) => Some(composed),
            Some(Bound::Plain(_)) => None,
            None => None,
        }
    }

    /// Moves the reader and the writer of the composite of a name.
    pub(crate) fn mark(&mut self, name: u32, marks: Marks)
        requires { (c : Composite) × (bound_at self.old name ≡ Some (Whole c)) }
        ensures { (c : Composite) → bound_at self.old name ≡ Some (Whole c) →
            self.new ≡ slice_set self.old name (Some (Whole (set_marks marks c))) }
    {
        let Some(Bound::Composed(composed)) = &mut self.bound[name as usize] else {
            unreachable!()
        };
        composed.mark(marks);
    }

    /// Gives the composite of a name another count of its own.
    pub(crate) fn recount(&mut self, name: u32, count: u32)
        requires { (c : Composite) × (bound_at self.old name ≡ Some (Whole c)) }
        ensures { (c : Composite) → bound_at self.old name ≡ Some (Whole c) →
            self.new ≡ slice_set self.old name (Some (Whole (record c { count = count }))) }
    {
        let Some(Bound::Composed(composed)) = &mut self.bound[name as usize] else {
            unreachable!()
        };
        composed.recount(count);
    }
}
