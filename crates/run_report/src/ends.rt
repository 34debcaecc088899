//! The lines of chunks and leaks, and the last line.

ghost use Rattle.std.specs.Prelude.{◌≡◌, ◌++◌, ◌∷◌, [], OnOk, codes, decimal};
ghost use Rattle.pool_law.specs.Text.{access_line, access_lines, chunk_line, chunk_lines, leak_line, leak_lines, line, named};

use crate::words::name_of;
use crate::writer::Writer;
use pool_law::{Access, ChunkEnd, Leak};
use std::alloc::AllocError;

impl Writer {
    // The line of a chunk.
    fn chunk_line(&mut self, chunk: &ChunkEnd) -> Result<(), AllocError>
        ensures { OnOk result (self.new ≡ self.old ++ chunk_line chunk.now) }
    {
        self.first("chunk")?;
        self.dotted(chunk.arena, chunk.chunk)?;
        self.word(name_of(chunk.list))?;
        self.named("used", u64::from(chunk.used))?;
        self.named("free", u64::from(chunk.free))?;
        self.end()
    }

    /// Appends the lines of chunks.
    pub fn chunk_lines(&mut self, chunks: &[ChunkEnd]) -> Result<(), AllocError>
        ensures { OnOk result (self.new ≡ self.old ++ chunk_lines chunks.now) }
    {
        for chunk in chunks {
            self.chunk_line(chunk)?;
        }
        Ok(())
    }

    // The line of an access, which begins with a space.
    fn access_line(&mut self, access: &Access) -> Result<(), AllocError>
        ensures { OnOk result (self.new ≡ self.old ++ access_line access.now) }
    {
        match *access {
            Access::Set { lane, offset, len } => {
                self.number(u64::from(lane))?;
                self.word("set")?;
                self.plus(offset, len)?;
            }
            Access::Get { lane, offset, len } => {
                self.number(u64::from(lane))?;
                self.word("get")?;
                self.plus(offset, len)?;
            }
            Access::Touch { lane } => {
                self.number(u64::from(lane))?;
                self.word("touch")?;
            }
        }
        self.end()
    }

    // The lines of the accesses that a leak keeps, oldest first.
    fn access_lines(&mut self, records: &[Access]) -> Result<(), AllocError>
        ensures { OnOk result (self.new ≡ self.old ++ access_lines records.now) }
    {
        for access in records {
            self.access_line(access)?;
        }
        Ok(())
    }

    // The line of a leak.
    fn leak_line(&mut self, leak: &Leak) -> Result<(), AllocError>
        ensures { OnOk result (self.new ≡ self.old ++ leak_line leak.now) }
    {
        self.first("leak")?;
        self.dotted(leak.lane, leak.serial)?;
        self.named("capacity", u64::from(leak.capacity))?;
        self.named("count", u64::from(leak.count))?;
        self.named("records", leak.records.items().len() as u64)?;
        self.named("dropped", leak.dropped)?;
        self.end()
    }

    /// Appends the lines of leaks, each with its accesses.
    pub fn leak_lines(&mut self, leaks: &[Leak]) -> Result<(), AllocError>
        ensures { OnOk result (self.new ≡ self.old ++ leak_lines leaks.now) }
    {
        for leak in leaks {
            self.leak_line(leak)?;
            self.access_lines(leak.records.items())?;
        }
        Ok(())
    }

    /// Appends the last line.
    pub fn end_line(&mut self, roots: usize, live: usize, leaks: usize) -> Result<(), AllocError>
        ensures { OnOk result (self.new ≡ self.old
            ++ line (codes "end" ∷ named (codes "roots") roots
            (named (codes "live") live (named (codes "leaks") leaks [])))) }
    {
        self.first("end")?;
        self.named("roots", roots as u64)?;
        self.named("live", live as u64)?;
        self.named("leaks", leaks as u64)?;
        self.end()
    }
}
