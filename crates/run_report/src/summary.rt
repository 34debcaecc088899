//! The summary of a run of a generated trace.

ghost use Rattle.std.specs.Prelude.{◌≡◌, ◌++◌, ◌∷◌, ◌≤◌, [], All, IfOk, OnOk, codes, decimal, length};
ghost use Rattle.pool_law.specs.Legal.{IsLegal};
ghost use Rattle.pool_law.specs.Text.{line, named};
ghost use Rattle.pool_law.specs.Summary.{blocks_in, generated_line, summary_of};

use crate::roots::{RootCounts, counts_of};
use crate::told::{ReplyTotals, told_of};
use crate::writer::Writer;
use pool_law::{Bytes, CommandList, Run};
use std::alloc::{AllocError, Global};

/// The summary of a run of a generated trace, in four lines: what was run, the roots, what was
/// read, the leaks. `start` is the number that the trace was generated from. A legal run has so few
/// replies that no sum overflows. Takes time linear in the length of the logs.
pub fn summary_of(alloc: Global, run: &Run, start: u64) -> Result<Bytes, AllocError>
    requires legal { IsLegal run.now }
    ensures { IfOk result (λ bytes. bytes ≡ summary_of run.now start) }
{
    summary_in(alloc, run, start)
}

/// The summary, where the lanes and the replies of each are as few as in any legal run.
pub fn summary_in(alloc: Global, run: &Run, start: u64) -> Result<Bytes, AllocError>
    requires lanes { length run.now.logs ≤ 16 }
    requires few { All (λ log. length log.replies ≤ 65536) run.now.logs }
    ensures { IfOk result (λ bytes. bytes ≡ summary_of run.now start) }
{
    let told = told_of(run);
    let roots = counts_of(alloc, run.logs.items())?;
    let mut text = Writer::new(alloc);
    text.generated_line(run, start)?;
    text.roots_line(roots, told.refused)?;
    text.read_line(told)?;
    text.leaks_line(run.leaks.items().len())?;
    Ok(text.into_bytes())
}

// The blocks of each lane, where all have as many as the first.
fn blocks_in(lanes: &[CommandList]) -> usize
    ensures { result ≡ blocks_in lanes.now }
{
    match lanes.first() {
        None => 0,
        Some(commands) => commands.items().len() / 8,
    }
}

impl Writer {
    // The line of what was run.
    fn generated_line(&mut self, run: &Run, start: u64) -> Result<(), AllocError>
        ensures { OnOk result (self.new ≡ self.old ++ generated_line run.now start) }
    {
        let lanes = run.trace.lanes.items();
        self.first("generated")?;
        self.number(start)?;
        self.named("lanes", lanes.len() as u64)?;
        self.named("blocks", blocks_in(lanes) as u64)?;
        self.end()
    }

    // The line of the roots, and of the replies that refuse.
    fn roots_line(&mut self, roots: RootCounts, refused: u64) -> Result<(), AllocError>
        ensures { OnOk result (self.new ≡ self.old
            ++ line (named (codes "roots") roots.born
            (named (codes "live") roots.live (named (codes "refused") refused [])))) }
    {
        self.first("roots")?;
        self.number(roots.born as u64)?;
        self.named("live", roots.live as u64)?;
        self.named("refused", refused)?;
        self.end()
    }

    // The line of the bytes that were read.
    fn read_line(&mut self, told: ReplyTotals) -> Result<(), AllocError>
        ensures { OnOk result (self.new ≡ self.old
            ++ line (named (codes "read") told.read (named (codes "sum") told.total []))) }
    {
        self.first("read")?;
        self.wide(told.read)?;
        self.word("sum")?;
        self.wide(told.total)?;
        self.end()
    }

    // The line of the leaks.
    fn leaks_line(&mut self, leaks: usize) -> Result<(), AllocError>
        ensures { OnOk result
            (self.new ≡ self.old ++ line (named (codes "leaks") leaks [])) }
    {
        self.first("leaks")?;
        self.number(leaks as u64)?;
        self.end()
    }
}
