//! A run cut into elements of one size, of which the one given back last is handed out first.

ghost use Rattle.std.specs.Prelude.{◌≡◌, ◌*◌, ◌/◌, ◌%◌, ◌≤◌, ◌↔◌, true, length, None, IfSome, IfNone, IsNone};
ghost use Rattle.size_classes.specs.Elements.{first_free, next_element, is_out, is_full, is_idle};
ghost use Rattle.subpage_bits.specs.Elements.{SharedRun, new_shared, given, IsElementOf, IsElementOut, HandsOut, KeepsOut, KeepsOutBut};

use bit_words::{clear, lowest_clear, set};
use ground::{Piece, Rack};
use std::marker::Model;
use std::mem::ManuallyDrop;

// As many bits as a run has elements at the most.
const WORDS: usize = 32;

/// A run of pages that is handed out by elements of one size.
///
/// No call takes memory, and each takes constant time. A subpage has no `Drop`: it ends by
/// `into_run` or by `leave`. The rule of the next element is that of Netty's `PoolSubpage`.
pub struct Subpage {
    rack: Rack,
    // A bit for each element, which tells that it is out.
    out: [u64; WORDS],
    count: u32,
    // How many are out.
    out_count: u32,
    remembered: Option<u32>,
}

impl Model for Subpage {
    ghost use Rattle.subpage_bits.specs.Elements.{SharedRun};

    ghost Value = { SharedRun };

    ghost use Rattle.subpage_bits.specs.Kept.{shared_in, IsSubpage};

    ghost view = { shared_in };

    ghost invariant = { IsSubpage };
}

impl Subpage {
    /// The run as elements of `size` bytes, all of them in.
    pub fn of(run: Piece, size: u32) -> Subpage
        requires size { 16 ≤ size }
        requires whole { length run.bytes % size ≡ 0 }
        requires few { length run.bytes / size ≤ 2048 }
        ensures { result ≡ new_shared run size }
    {
        let count = run.len() / size as usize;
        Subpage {
            rack: Rack::of(run, size as usize),
            out: [0; WORDS],
            count: count as u32,
            out_count: 0,
            remembered: None,
        }
    }

    /// Whether every element is out.
    pub fn is_full(&self) -> bool
        ensures { result ≡ is_full self.now.elements }
    {
        self.out_count == self.count
    }

    /// Whether none is out.
    pub fn is_empty(&self) -> bool
        ensures { result ≡ is_idle self.now.elements }
    {
        self.out_count == 0
    }

    // The lowest element that is in.
    fn lowest_in(&self) -> Option<u32>
        ensures { result ≡ first_free self.now.elements.out }
    {
        if self.is_full() {
            None
        } else {
            lowest_clear(&self.out)
        }
    }

    // The element that is handed out next.
    fn choose(&self) -> Option<u32>
        ensures { result ≡ next_element self.now.elements }
    {
        match self.remembered {
            Some(i) => Some(i),
            None => self.lowest_in(),
        }
    }

    /// An element and its number: the one given back last, if one is remembered, which is then
    /// forgotten; otherwise the lowest that is in.
    ///
    /// None where every element is out, and then nothing changes.
    pub fn take(&mut self) -> Option<(Piece, u32)>
        ensures full { IsNone result ↔ (is_full self.old.elements ≡ true) }
        ensures none { IfNone result
            ((next_element self.old.elements ≡ None) × (self.new ≡ self.old)) }
        ensures some { IfSome result (λ x. HandsOut self.old self.new x.0 x.1) }
        // It may be given back, and what else is out stays out.
        ensures out { IfSome result (λ x. IsElementOut self.new x.1 x.0) }
        ensures kept { KeepsOut self.old self.new }
    {
        match self.choose() {
            None => None,
            Some(i) => {
                let piece = self.rack.pull(i as usize);
                set(&mut self.out, i);
                self.out_count += 1;
                self.remembered = None;
                Some((piece, i))
            }
        }
    }

    /// Puts element `i`, which is out, back, and remembers it.
    pub fn give(&mut self, piece: Piece, i: u32)
        requires element { IsElementOf self.old i piece }
        requires out { is_out self.old.elements i ≡ true }
        ensures back { self.new ≡ given self.old i }
        // What else is out stays out.
        ensures kept { KeepsOutBut i self.old self.new }
    {
        self.rack.push(piece);
        clear(&mut self.out, i);
        self.out_count -= 1;
        self.remembered = Some(i);
    }

    /// The run, where no element is out.
    pub fn into_run(self) -> Piece
        requires { is_idle self.elements ≡ true }
        ensures place { (result.origin ≡ self.origin) × (result.start ≡ self.start) }
        ensures len { length result.bytes ≡ length self.elements.out * self.size }
    {
        let Subpage {
            rack,
            out: _,
            count: _,
            out_count: _,
            remembered: _,
        } = self;
        rack.into_piece()
    }

    /// Spends the subpage and keeps its memory until the program ends.
    pub fn leave(self) {
        let _left = unsafe { ManuallyDrop::new_unchecked(self) };
    }
}
