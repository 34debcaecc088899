//! The runs of a chunk around a page.

ghost use Rattle.std.specs.Prelude.{◌≡◌, IfOk};
ghost use Rattle.object_steps.specs.PageRuns.{ArePageRuns};

use crate::run::Run;
use std::alloc::{AllocError, Global};
use std::collections::VecDeque;

/// The runs before a page, the run that is replaced there, and those behind it.
#[derive(Drop)]
pub(crate) struct PageRuns {
    pub(crate) before: VecDeque<Run>,
    pub(crate) here: Option<Run>,
    /// Whether that run begins at the page.
    pub(crate) exact: bool,
    pub(crate) behind: VecDeque<Run>,
}

/// Parts runs at a page.
pub(crate) fn runs_at(alloc: Global, runs: VecDeque<Run>, page: u32) -> Result<PageRuns, AllocError>
    ensures { IfOk result (ArePageRuns page runs.items) }
{
    let mut before = VecDeque::new(alloc);
    let mut behind = runs;
    let mut left = page;
    let mut exact = true;
    while let Some(run) = behind.pop_front() {
        if left == 0 {
            return Ok(PageRuns {
                before,
                here: Some(run),
                exact,
                behind,
            });
        }
        exact = exact && run.pages <= left;
        left = left.saturating_sub(run.pages);
        before.push_back(run)?;
    }
    Ok(PageRuns {
        before,
        here: None,
        exact,
        behind,
    })
}
