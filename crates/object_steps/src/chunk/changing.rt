//! What a chunk is once a run or an element of it is taken or given back.

ghost use Rattle.std.specs.Prelude.{◌≡◌, ◌+◌, ◌≤◌, ◌^◌, [], ◌∷◌, ◌++◌, IfOk, OnOk};
ghost use Rattle.size_classes.specs.Pages.{Free, pages_in, total_pages, merged, joined};
ghost use Rattle.size_classes.specs.Pages.{front_used, freed, taken_at, given_at, replaced};
ghost use Rattle.object_steps.specs.Elementwise.{with_element_out, with_element_back};
ghost use Rattle.object_steps.specs.Runs.{use_of, made_of, HasRoom};

use crate::chunk::Chunk;
use crate::page_runs::{PageRuns, runs_at};
use crate::run::{Kind, Purpose, Run};
use std::alloc::{AllocError, Global};
use std::collections::VecDeque;

impl Chunk {
    /// The chunk once an element of the subpage that begins at a page is handed out.
    pub fn handed_out(self, alloc: Global, page: u32, element: u32) -> Result<Chunk, AllocError>
        ensures { IfOk result (λ chunk. chunk
            ≡ replaced page (λ r. with_element_out element r ∷ []) self) }
    {
        let PageRuns {
            mut before,
            here,
            exact: _,
            mut behind,
        } = runs_at(alloc, self.runs, page)?;
        if let Some(run) = here {
            before.push_back(run.with_element_out(element))?;
        }
        before.append(&mut behind)?;
        Ok(Chunk { runs: before })
    }

    /// The chunk once an element of the subpage that begins at a page is given back.
    pub fn taken_back(self, alloc: Global, page: u32, element: u32) -> Result<Chunk, AllocError>
        ensures { IfOk result (λ chunk. chunk
            ≡ replaced page (λ r. with_element_back element r ∷ []) self) }
    {
        let PageRuns {
            mut before,
            here,
            exact: _,
            mut behind,
        } = runs_at(alloc, self.runs, page)?;
        if let Some(run) = here {
            before.push_back(run.with_element_back(element))?;
        }
        before.append(&mut behind)?;
        Ok(Chunk { runs: before })
    }

    /// The chunk once the front pages of the run that begins at a page are taken for something.
    pub fn taken(
        self,
        alloc: Global,
        page: u32,
        pages: u32,
        what: Purpose,
    ) -> Result<Chunk, AllocError>
        requires { HasRoom page pages self }
        ensures { IfOk result (λ chunk. chunk ≡ taken_at page pages (use_of what) self) }
    {
        let PageRuns {
            before,
            here,
            exact: _,
            mut behind,
        } = runs_at(alloc, self.runs, page)?;
        let mut runs = with_used(before, here, pages, what)?;
        runs.append(&mut behind)?;
        Ok(Chunk { runs })
    }

    /// The chunk once the run that begins at a page is given back.
    pub fn given(self, alloc: Global, page: u32) -> Result<Chunk, AllocError>
        ensures { IfOk result (λ chunk. chunk ≡ given_at page self) }
    {
        let PageRuns {
            before,
            here,
            exact: _,
            mut behind,
        } = runs_at(alloc, self.runs, page)?;
        let mut free = with_freed(before, here)?;
        free.append(&mut behind)?;
        let runs = merge(alloc, free)?;
        Ok(Chunk { runs })
    }
}

// Runs, and behind them so many pages of a run in use, and the rest of the run.
fn with_used(
    before: VecDeque<Run>,
    here: Option<Run>,
    pages: u32,
    what: Purpose,
) -> Result<VecDeque<Run>, AllocError>
    ensures { IfOk result (λ runs.
        runs.items ≡ before.items ++ made_of (front_used pages (use_of what)) here) }
{
    let mut runs = before;
    if let Some(run) = here {
        let left = run.pages().saturating_sub(pages);
        runs.push_back(Run {
            pages,
            kind: Kind::Used(what),
        })?;
        if left > 0 {
            runs.push_back(Run {
                pages: left,
                kind: Kind::Free,
            })?;
        }
    }
    Ok(runs)
}

// Runs, and behind them a run that becomes free.
fn with_freed(before: VecDeque<Run>, here: Option<Run>) -> Result<VecDeque<Run>, AllocError>
    ensures { IfOk result (λ runs. runs.items ≡ before.items ++ made_of freed here) }
{
    let mut runs = before;
    if let Some(run) = here {
        runs.push_back(Run {
            pages: run.pages(),
            kind: Kind::Free,
        })?;
    }
    Ok(runs)
}

// Free runs that are side by side become one.
fn merge(alloc: Global, runs: VecDeque<Run>) -> Result<VecDeque<Run>, AllocError>
    requires { total_pages runs.items ≤ 2 ^ 16 }
    ensures { IfOk result (λ new. new.items ≡ merged runs.items) }
{
    let mut left = runs;
    let mut new = VecDeque::new(alloc);
    while let Some(run) = left.pop_back() {
        join(run, &mut new)?;
    }
    Ok(new)
}

// A run before others, which takes in a free run that begins them if it is free.
fn join(run: Run, runs: &mut VecDeque<Run>) -> Result<(), AllocError>
    requires { pages_in run + total_pages runs.old.items ≤ 2 ^ 16 }
    ensures { OnOk result (runs.new.items ≡ joined run runs.old.items) }
{
    let Run { pages, kind } = run;
    match kind {
        Kind::Used(what) => {
            runs.push_front(Run {
                pages,
                kind: Kind::Used(what),
            })?;
            Ok(())
        }
        Kind::Free => join_free(pages, runs),
    }
}

// A free run before others.
fn join_free(pages: u32, runs: &mut VecDeque<Run>) -> Result<(), AllocError>
    requires { pages + total_pages runs.old.items ≤ 2 ^ 16 }
    ensures { OnOk result (runs.new.items ≡ joined (Free pages) runs.old.items) }
{
    let Some(next) = runs.pop_front() else {
        runs.push_front(Run {
            pages,
            kind: Kind::Free,
        })?;
        return Ok(());
    };
    let Run { pages: more, kind } = next;
    match kind {
        Kind::Free => runs.push_front(Run {
            pages: pages + more,
            kind: Kind::Free,
        })?,
        Kind::Used(what) => {
            runs.push_front(Run {
                pages: more,
                kind: Kind::Used(what),
            })?;
            runs.push_front(Run {
                pages,
                kind: Kind::Free,
            })?;
        }
    }
    Ok(())
}
