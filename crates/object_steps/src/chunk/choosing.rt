//! Which free run of a chunk is taken.

ghost use Rattle.std.specs.Prelude.{◌≡◌, ◌<◌, ◌==◌, ◌&&◌, ℕ, nat_le, find, option_map, IfSome, IfOk};
ghost use Rattle.size_classes.specs.Pages.{free_runs, lower, least_class, chosen};
ghost use Rattle.size_classes.specs.Sizes.{page_class_under};
ghost use Rattle.object_steps.specs.Runs.{AreRuns, HasRoom, IsCapped};

use crate::chunk::Chunk;
use crate::sizes::Sizes;
use std::alloc::{AllocError, Global};

impl Chunk {
    /// The first page of the free run that an allocation of so many pages takes.
    pub fn choose(
        &self,
        alloc: Global,
        sizes: &Sizes,
        pages: u32,
    ) -> Result<Option<u32>, AllocError>
        requires { 0 < pages }
        ensures page { (wanted : ℕ) → IsCapped wanted pages → IfOk result (λ page. page
            ≡ option_map (λ run. run.0) (chosen sizes.now wanted (free_runs 0 self.now))) }
        ensures room { IfOk result (λ page. IfSome page (λ at. HasRoom at pages self.now)) }
    {
        self.choose_exactly(alloc, sizes, pages)
    }

    // The same, for so many pages.
    fn choose_exactly(
        &self,
        alloc: Global,
        sizes: &Sizes,
        pages: u32,
    ) -> Result<Option<u32>, AllocError>
        ensures page { IfOk result (λ page. page
            ≡ option_map (λ run. run.0) (chosen sizes.now pages (free_runs 0 self.now))) }
        ensures runs { AreRuns self.now }
    {
        let runs = self.free_runs(alloc)?;
        let least = least_class(sizes, pages, &runs);
        Ok(first_of_class(sizes, pages, least, &runs))
    }

    // The free runs, each by its first page and its pages.
    fn free_runs(&self, alloc: Global) -> Result<Vec<(u32, u32)>, AllocError>
        ensures free { IfOk result (λ runs. runs.items ≡ free_runs 0 self.now) }
        ensures runs { AreRuns self.now }
    {
        let mut runs = Vec::new(alloc);
        let mut page = 0;
        for index in 0..self.runs.len() {
            let run = &self.runs[index];
            let pages = run.pages();
            if run.is_free() {
                runs.push((page, pages))?;
            }
            page += pages;
        }
        Ok(runs)
    }
}

// The least page class under which a run of at least so many pages stands, and 0 for none.
fn least_class(sizes: &Sizes, pages: u32, runs: &[(u32, u32)]) -> u32
    ensures { result ≡ least_class sizes.now pages runs.now }
{
    let mut least = 0;
    for run in runs {
        if pages <= run.1 {
            least = lower(least, sizes.class_under(run.1));
        }
    }
    least
}

// The lower of two, where 0 stands for none.
fn lower(least: u32, class: u32) -> u32
    ensures { result ≡ lower least class }
{
    if least == 0 { class } else { least.min(class) }
}

// The first page of the first run of at least so many pages that stands under a page class.
fn first_of_class(sizes: &Sizes, pages: u32, least: u32, runs: &[(u32, u32)]) -> Option<u32>
    ensures { result ≡ option_map (λ run. run.0)
        (find (λ run. nat_le pages run.1 && (page_class_under sizes.now run.1 == least)) runs.now) }
{
    for run in runs {
        if pages <= run.1 && sizes.class_under(run.1) == least {
            return Some(run.0);
        }
    }
    None
}
