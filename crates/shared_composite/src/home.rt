//! What stands at home for a composite of a board.

use crate::cores::Core;
use board_table::Homed;
use shared_pool::SharedPool;
use std::collections::LinkedList;

/// A core at home, behind a box that `Board::new` made, so that it is small to move into a section and
/// back.
pub(crate) struct Home {
    pub(crate) core: Box<Core>,
}

/// What a board is made from, as contracts see it. No value of this type is ever made.
pub(crate) struct Origin {
    pub(crate) pool: SharedPool,
    pub(crate) cores: LinkedList<Core>,
}

impl Homed<Origin> for Home {
    ghost use Rattle.shared_composite.specs.Homes.{HomeStands, home_turns};

    ghost stands = { HomeStands };

    ghost left = { home_turns };
}
