//! The home value of a section. The clause names the row of `Section`, which the file that declares
//! it can't import.

ghost use Rattle.std.specs.Prelude.{◌≡◌};
ghost use Rattle.std.specs.Borrow.{sem, Lends};
ghost use Rattle.board_table.specs.contracts.table.Section.{the_row};
ghost use Rattle.board_table.specs.Homing.{with_home};

use crate::table::Section;

impl<H> Section<H> {
    /// The home value. When the borrow ends, the section has what was written through it.
    #[inline(always)]
    pub fn home(section: &mut Section<H>) -> &mut H
        ensures* writes_back { sem 𝓛
            (Lends (the_row H.row) H.row section.entry result (with_home section.old)) }
        ensures value { result.now ≡ section.old.home }
    {
        &mut section.home
    }
}
