//! A run of pages, free or in use.

use crate::elements::Elements;
use std::marker::Model;

/// What a run in use is for.
#[derive(Drop)]
pub enum Purpose {
    /// All of it for one region.
    Whole,
    /// The elements of a class.
    Sub { class: u32, elements: Elements },
}

/// Whether a run is in use.
#[derive(Drop)]
pub enum Kind {
    Free,
    Used(Purpose),
}

/// A run of pages.
#[derive(Drop)]
pub struct Run {
    pub(crate) pages: u32,
    pub(crate) kind: Kind,
}

impl Model for Run {
    ghost use Rattle.size_classes.specs.Pages.{Run};
    ghost use Rattle.pool_law.specs.Chunks.{Use};

    ghost Value = { Run Use };

    ghost use Rattle.object_steps.specs.Runs.{run_of};

    ghost view = { λ r. run_of r.pages r.kind };
}

impl Run {
    ghost use Rattle.std.specs.Prelude.{◌≡◌, ◌≤◌, Some};
    ghost use Rattle.std.specs.Option.{option_copied};
    ghost use Rattle.size_classes.specs.Pages.{pages_in, free_in};
    ghost use Rattle.pool_law.specs.Chunks.{used_in};
    ghost use Rattle.pool_law.specs.Arenas.{elements_in};
    ghost use Rattle.object_steps.specs.Elementwise.{is_free, with_element_out, with_element_back};

    /// Its pages.
    pub fn pages(&self) -> u32
        ensures { result ≡ pages_in self.now }
    {
        self.pages
    }

    /// Its pages, if it is in use.
    pub fn used(&self) -> u32
        ensures pages { result ≡ used_in self.now }
        ensures within { result ≤ pages_in self.now }
    {
        match &self.kind {
            Kind::Free => 0,
            Kind::Used(_) => self.pages,
        }
    }

    /// Its pages, if it is free.
    pub fn free(&self) -> u32
        ensures pages { result ≡ free_in self.now }
        ensures within { result ≤ pages_in self.now }
    {
        match &self.kind {
            Kind::Free => self.pages,
            Kind::Used(_) => 0,
        }
    }

    /// Its elements, if it is a subpage of the class.
    pub fn elements(&self, class: u32) -> Option<&Elements>
        ensures { option_copied result ≡ elements_in class (Some self.now) }
    {
        match &self.kind {
            Kind::Free => None,
            Kind::Used(what) => match what {
                Purpose::Whole => None,
                Purpose::Sub {
                    class: own,
                    elements,
                } => (class == *own).then_some(elements),
            },
        }
    }

    /// Whether it is free.
    pub fn is_free(&self) -> bool
        ensures { result ≡ is_free self.now }
    {
        match &self.kind {
            Kind::Free => true,
            Kind::Used(_) => false,
        }
    }

    /// The run once an element is handed out, if it is a subpage.
    pub fn with_element_out(self, element: u32) -> Run
        ensures { result ≡ with_element_out element self }
    {
        let Run { pages, kind } = self;
        match kind {
            Kind::Used(
                Purpose::Sub {
                    class,
                    mut elements,
                },
            ) => {
                elements.take(element);
                let what = Purpose::Sub { class, elements };
                Run {
                    pages,
                    kind: Kind::Used(what),
                }
            }
            other => Run { pages, kind: other },
        }
    }

    /// The run once an element is given back, if it is a subpage.
    pub fn with_element_back(self, element: u32) -> Run
        ensures { result ≡ with_element_back element self }
    {
        let Run { pages, kind } = self;
        match kind {
            Kind::Used(
                Purpose::Sub {
                    class,
                    mut elements,
                },
            ) => {
                elements.give(element);
                let what = Purpose::Sub { class, elements };
                Run {
                    pages,
                    kind: Kind::Used(what),
                }
            }
            other => Run { pages, kind: other },
        }
    }
}
