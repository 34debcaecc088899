//! The elements of a subpage.

ghost use Rattle.std.specs.Prelude.{◌≡◌, ◌<◌, ◌≤◌, ◌^◌, length, slice_set, IfOk, IfSome};
ghost use Rattle.size_classes.specs.Elements.{
  new_elements,
  first_free,
  next_element,
  with_out,
  with_back,
  is_full,
  is_idle,
};

use std::alloc::{AllocError, Global};
use std::marker::Model;

/// For each element whether it is out, and the one given back last, until it is handed out.
#[derive(Drop)]
pub struct Elements {
    out: Vec<bool>,
    remembered: Option<u32>,
}

impl Model for Elements {
    ghost use Rattle.std.specs.Prelude.{◌≤◌, ◌^◌, length};
    ghost use Rattle.size_classes.specs.Elements.{Elements};

    ghost Value = { Elements };

    ghost view = { λ e. record { out = e.out.items; remembered = e.remembered } };

    ghost invariant = { λ e. length e.out.items ≤ 2 ^ 16 };
}

impl Elements {
    /// So many elements, of which none is out.
    pub fn new(alloc: Global, count: u32) -> Result<Elements, AllocError>
        requires { count ≤ 2 ^ 16 }
        ensures { IfOk result (λ elements. elements ≡ new_elements count) }
    {
        let out = vec![in alloc; false; count as usize]?;
        Ok(Elements {
            out,
            remembered: None,
        })
    }

    /// The element that is handed out next.
    pub fn next(&self) -> Option<u32>
        ensures { result ≡ next_element self.now }
    {
        match self.remembered {
            Some(element) => Some(element),
            None => first_free(&self.out),
        }
    }

    /// The elements once one is handed out.
    pub fn take(&mut self, element: u32)
        ensures { self.new ≡ with_out self.old element }
    {
        mark(&mut self.out, element, true);
        self.remembered = None;
    }

    /// The elements once one is given back.
    pub fn give(&mut self, element: u32)
        ensures { self.new ≡ with_back self.old element }
    {
        mark(&mut self.out, element, false);
        self.remembered = Some(element);
    }

    /// Whether every element is out.
    pub fn is_full(&self) -> bool
        ensures { result ≡ is_full self.now }
    {
        self.out.iter().all(|out| *out)
    }

    /// Whether none is out.
    pub fn is_idle(&self) -> bool
        ensures { result ≡ is_idle self.now }
    {
        self.out.iter().all(|out| !*out)
    }
}

// The lowest that is not out.
fn first_free(out: &[bool]) -> Option<u32>
    requires { length out.now ≤ 2 ^ 16 }
    ensures { result ≡ first_free out.now }
{
    match first_place(out) {
        Some(element) => Some(element as u32),
        None => None,
    }
}

// The place of the first that is not out.
fn first_place(out: &[bool]) -> Option<usize>
    ensures place { result ≡ first_free out.now }
    ensures within { IfSome result (λ k. k < length out.now) }
{
    out.iter().position(|is_out| !*is_out)
}

// Marks an element, if it is there.
fn mark(out: &mut [bool], element: u32, is_out: bool)
    ensures { out.new ≡ slice_set out.old element is_out }
{
    let index = element as usize;
    if index < out.len() {
        out[index] = is_out;
    }
}
