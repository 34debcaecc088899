//! The pool and the lane whose log is read.

ghost use Rattle.std.specs.Prelude.{◌≡◌, ◌≤◌};
ghost use Rattle.pool_law.specs.Limits.{geometry_of};

use pool_law::Shape;
use size_classes::SizeClasses;

/// The pool's measures and classes, and the number of the lane.
#[derive(Clone, Copy, Drop)]
pub(crate) struct Setting<'a> {
    pub(crate) shape: &'a Shape,
    pub(crate) classes: &'a SizeClasses,
    pub(crate) lane: u32,
    ghost arenas: { 1 ≤ shape.now.arenas },
    ghost handles: { 1 ≤ shape.now.handles },
    ghost sizes: { classes.now ≡ geometry_of shape.now },
}
