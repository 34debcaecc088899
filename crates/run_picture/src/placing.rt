//! How takings are placed on a chart.

ghost use Rattle.std.specs.Prelude.{◌≡◌, ◌++◌, ◌≤◌, Some, IfOk, OnOk};
ghost use Rattle.pool_law.specs.Text.{shown_place};
ghost use Rattle.run_picture.specs.Charts.{
  share,
  x_of,
  moment_of,
  end_of,
  y_in,
  y_of,
  block_area,
  is_kept,
  block_mark,
  block_title,
  region_title,
  size_title,
  taken_title,
  return_title,
};

use crate::blocks::{Block, Return};
use crate::chart::{Chart, Cut, LEFT, WIDTH};
use crate::marks::{Area, Mark, Style};
use crate::writer::Writer;
use pool_law::{Bytes, Place, RegionId};
use std::alloc::{AllocError, Global};

/// What a part of a whole comes to, of something of this size.
pub fn share(part: u64, whole: u64, size: u32) -> u32
    ensures share { result ≡ share part whole size }
    ensures within { result ≤ size }
{
    if whole == 0 {
        return 0;
    }
    let found = u128::from(part) * u128::from(size) / u128::from(whole);
    found.min(u128::from(size)) as u32
}

// Where the last of these cuts at or before a byte is drawn.
fn y_in(cuts: &[Cut], offset: u64) -> u32
    ensures { result ≡ y_in 0 cuts.now offset }
{
    let mut y = 0;
    for cut in cuts {
        if u64::from(cut.offset) > offset {
            return y;
        }
        y = cut.y;
    }
    y
}

impl Chart {
    /// Where a moment is drawn.
    pub fn x_of(&self, moment: u64) -> u32
        ensures { result ≡ x_of self.now moment }
    {
        LEFT + share(moment, self.last, WIDTH)
    }

    /// The moment of a note; the end of the picture where it has none.
    pub fn moment_of(&self, number: u64) -> u64
        ensures { result ≡ moment_of self.now number }
    {
        let at = number.saturating_sub(1) as usize;
        self.moments.items().get(at).copied().unwrap_or(self.last)
    }

    /// The moment at which a taking came back; the end of the picture while it is out.
    pub fn end_of(&self, block: &Block) -> u64
        ensures { result ≡ end_of self.now block.now }
    {
        match block.back {
            Some(back) => self.moment_of(back.number),
            None => self.last,
        }
    }

    /// Where a byte of a chunk is drawn: at the last cut at or before it.
    pub fn y_of(&self, chunk: u32, offset: u64) -> u32
        ensures { result ≡ y_of self.now chunk offset }
    {
        match self.strips.items().get(chunk as usize) {
            Some(strip) => y_in(strip.cuts.items(), offset),
            None => 0,
        }
    }

    /// The upper and the lower edge of a chunk place.
    pub fn edges_of(&self, chunk: u32) -> (u32, u32) {
        match self.strips.items().get(chunk as usize) {
            Some(strip) => {
                let cuts = strip.cuts.items();
                let upper = cuts.first().map_or(0, |cut| cut.y);
                (upper, cuts.last().map_or(upper, |cut| cut.y))
            }
            None => (0, 0),
        }
    }

    /// Where a taking is drawn.
    pub fn block_area(&self, block: &Block) -> Area
        ensures { result ≡ block_area self.now block.now }
    {
        let chunk = block.region.place.chunk;
        let offset = block.region.place.offset;
        let len = block.region.place.len;
        let first = u64::from(offset);
        let x = self.x_of(self.moment_of(block.number));
        let y = self.y_of(chunk, first);
        let right = self.x_of(self.end_of(block));
        let lower = self.y_of(chunk, first + u64::from(len));
        Area {
            x,
            y,
            width: right.saturating_sub(x),
            height: lower.saturating_sub(y),
        }
    }

    /// Whether a taking is drawn where those are left out that were out for fewer moments.
    pub fn is_kept(&self, least: u64, block: &Block) -> bool
        ensures { result ≡ is_kept self.now least block.now }
    {
        match block.back {
            Some(back) => {
                let from = self.moment_of(block.number);
                least <= self.moment_of(back.number).saturating_sub(from)
            }
            None => true,
        }
    }

    /// A taking as a mark, with a title that tells of it.
    pub fn block_mark(&self, alloc: Global, block: &Block) -> Result<Mark, AllocError>
        ensures { IfOk result (λ mark. mark ≡ block_mark self.now block.now) }
    {
        let title = block_title(alloc, block)?;
        Ok(Mark::Rect {
            style: Style::Block,
            area: self.block_area(block),
            title,
        })
    }
}

// What is said of a taking where it is pointed at.
fn block_title(alloc: Global, block: &Block) -> Result<Bytes, AllocError>
    ensures { IfOk result (λ title. title ≡ block_title block.now) }
{
    let mut title = Writer::new(alloc);
    title.region(&block.region)?;
    title.size(&block.region)?;
    title.taken(block)?;
    title.back(&block.back)?;
    Ok(title.into_bytes())
}

impl Writer {
    // Appends arena, chunk and offset of a place.
    fn place(&mut self, place: &Place) -> Result<(), AllocError>
        ensures { OnOk result (self.new ≡ self.old ++ shown_place place.now) }
    {
        self.number(place.arena as u64)?;
        self.named(".", place.chunk as u64)?;
        self.named("+", place.offset as u64)
    }

    // Appends which taking it is, and where it lies.
    fn region(&mut self, region: &RegionId) -> Result<(), AllocError>
        ensures { OnOk result (self.new ≡ self.old ++ region_title region.now) }
    {
        self.named("taking ", region.taking)?;
        self.words(" at ")?;
        self.place(&region.place)
    }

    // Appends how many bytes it has, and their class.
    fn size(&mut self, region: &RegionId) -> Result<(), AllocError>
        ensures { OnOk result (self.new ≡ self.old ++ size_title region.now) }
    {
        self.named(", bytes ", region.place.len as u64)?;
        self.named(", class ", region.class as u64)
    }

    // Appends the note that took it, and its lane.
    fn taken(&mut self, block: &Block) -> Result<(), AllocError>
        ensures { OnOk result (self.new ≡ self.old ++ taken_title block.now) }
    {
        self.named("; taken by note ", block.number)?;
        self.named(" by lane ", block.lane as u64)
    }

    // Appends a note that gave it back, and its lane.
    fn given(&mut self, back: Return) -> Result<(), AllocError>
        ensures { OnOk result (self.new ≡ self.old ++ return_title (Some back)) }
    {
        self.named("; given back by note ", back.number)?;
        self.named(" by lane ", back.lane as u64)
    }

    // Appends what is said of a return.
    fn back(&mut self, back: &Option<Return>) -> Result<(), AllocError>
        ensures { OnOk result (self.new ≡ self.old ++ return_title back.now) }
    {
        match back {
            None => self.words("; still out"),
            Some(back) => self.given(*back),
        }
    }
}
