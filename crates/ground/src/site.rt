//! Which ground something stands on, where it may have no piece of it at hand.
ghost use Rattle.std.specs.Prelude.{◌≡◌};
ghost use base.Fml.{ftrue};
ghost use Rattle.ground.specs.Ground.{Origin};

use crate::Piece;
use std::marker::Model;

/// A ground's identity, for contracts alone. It takes no memory and gives no right to any byte.
#[derive(Drop)]
pub struct Site {
    pub ghost origin: { Origin },
}

impl Model for Site {
    ghost also_owns = { λ _. ftrue };
}

impl Site {
    /// The ground of a piece.
    pub fn of(piece: &Piece) -> Site
        ensures { result.origin ≡ piece.now.origin }
    {
        Site {}
    }
}
